// The price list: what became of the tapes that were taken in.
ghost use Rattle.std.specs.Prelude.{◌≡◌, ◌≤◌, length, IfOk, vec_capacity, OnOk};
ghost use Rattle.rack.specs.Racks.{unfit};
ghost use Rattle.rack.specs.History.{event, history, total};
ghost use Rattle.rack.specs.Law.{in_bay, standing_in};
ghost use Rattle.rack.specs.Prices.{column, price_list, priced, Balances};
ghost use Rattle.rack.specs.Runs.{Serves, unserved, Refuses};

use super::run::{Unserved, run};
use cell::call::Call;
use cell::cell::Bay;
use cell::raw::Content;
use cell::report::{Answer, Fate, Said};
use polls::Future;
use schedule::Schedule;

#[derive(Clone, Copy)]
pub struct PriceList {
    // tapes taken in: spawns that were carried out
    pub taken_in: usize,
    // recordings delivered to a reader
    pub delivered: usize,
    // recordings discarded: outputs dropped
    pub discarded: usize,
    // jobs dropped: futures dropped
    pub dropped: usize,
    // jobs lost: futures lost
    pub lost: usize,
    // futures and outputs that stand in the bays
    pub standing: usize,
}

// The columns that are counted off the reports.
#[derive(Clone, Copy)]
pub enum Column {
    TakenIn,
    Delivered,
    Discarded,
    Dropped,
    Lost,
}

// What one call adds to a column. A column is a case and no closure, so that one definition says what it counts; and a
// number and no test, as the columns are numbers that add up.
fn adds<F: Copy, O: Copy>(kind: Column, call: Call<F>, said: Said<O>) -> usize
    ensures value { result ≡ column kind (event call said) }
    ensures small { result ≤ 1 }
{
    let Ok(report) = said else {
        return 0;
    };
    match (kind, call, report.answer, report.fate) {
        (Column::TakenIn, Call::Spawn { .. }, _, _) => 1,
        (Column::Delivered, _, Answer::Delivered(_), _) => 1,
        (Column::Discarded, _, _, Fate::OutputDropped) => 1,
        (Column::Dropped, _, _, Fate::FutureDropped) => 1,
        (Column::Lost, _, _, Fate::FutureLost) => 1,
        _ => 0,
    }
}

// What a list of calls adds to a column, with the report of each call. The reports stand in a list of their own, as
// `run` leaves them.
fn tally<F: Copy, O: Copy>(kind: Column, calls: &[Call<F>], said: &[Said<O>]) -> usize
    ensures { result ≡ total (column kind) (history calls.now said.now) }
{
    let mut sum: usize = 0;
    for (call, said) in calls.iter().zip(said) {
        sum += adds(kind, *call, *said);
    }
    sum
}

fn stands<F: Copy, O: Copy>(bay: Bay<F, O>) -> usize
    ensures value { result ≡ in_bay bay }
    ensures small { result ≤ 1 }
{
    match bay {
        Some(cell) if !matches!(cell.task.content, Content::Empty) => 1,
        _ => 0,
    }
}

// How many futures and outputs stand in the bays.
pub fn standing<F: Copy, O: Copy>(bays: &[Bay<F, O>]) -> usize
    ensures { result ≡ standing_in bays.now }
{
    let mut sum: usize = 0;
    for bay in bays {
        sum += stands(*bay);
    }
    sum
}

// The price list of the calls and their reports, as far as both go, with what stands in the bays.
fn draw_up<F: Copy, O: Copy>(calls: &[Call<F>], said: &[Said<O>], bays: &[Bay<F, O>]) -> PriceList
    ensures { result ≡ price_list (history calls.now said.now) bays.now }
{
    PriceList {
        taken_in: tally(Column::TakenIn, calls, said),
        delivered: tally(Column::Delivered, calls, said),
        discarded: tally(Column::Discarded, calls, said),
        dropped: tally(Column::Dropped, calls, said),
        lost: tally(Column::Lost, calls, said),
        standing: standing(bays),
    }
}

// The price list of the calls and their reports, with what stands in the bays; none if they are not as many.
pub fn price_list<F: Copy, O: Copy>(
    calls: &[Call<F>],
    said: &[Said<O>],
    bays: &[Bay<F, O>],
) -> Option<PriceList>
    ensures { result ≡ priced calls.now said.now bays.now }
{
    if calls.len() != said.len() {
        return None;
    }
    Some(draw_up(calls, said, bays))
}

// Opens the rack, carries out the calls and draws up the price list, which balances.
pub fn run_priced<F: Future, S: Schedule>(
    bays: &mut [Bay<F, F::Output>],
    policy: &mut S,
    calls: &[Call<F>],
    reports: &mut Vec<Said<F::Output>>,
) -> Result<PriceList, Unserved>
    ensures served { OnOk result (Serves F.Future.step S.Schedule bays.old policy.old calls.now reports.new.items bays.new policy.new) }
    ensures refused { Refuses (unserved (length calls.now) (vec_capacity reports.old) (unfit (length bays.old) (S.Schedule.entries policy.old) (S.Schedule.places policy.old))) result bays.old bays.new policy.old policy.new reports.old reports.new }
    ensures priced { IfOk result (λ p. p ≡ price_list (history calls.now reports.new.items) bays.new) }
    ensures balanced { IfOk result Balances }
{
    run(bays, policy, calls, reports)?;
    Ok(draw_up(calls, reports, bays))
}
