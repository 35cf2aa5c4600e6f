// The questions that calls ask, each a function that declines where its answer is no.
ghost use Rattle.std.specs.Prelude.{◌≡◌, ℕ, Bool, ◌&&◌, not, Some, Ok, nat_lt, slice_get};
ghost use Rattle.fabric.specs.declared.declined.Declined.{Declined};
ghost use Rattle.fabric.specs.Questions.{Answers, Declines, ask_each, and_then};
ghost use Rattle.fabric.specs.Reserving.{ask_number, ask_hops, ask_path, ask_open, among, or_declined};
ghost use Rattle.table.specs.Services.{service_for};
ghost use Rattle.bank.specs.Ports.{port_at};

use crate::declined::{Declined, by_fabric, port_shut};
use bank::bank::Bank;
use book::session::Session;
use table::refusal::Reason;
use table::service::Service;

// A path has 1 to so many hops.
pub(crate) const MOST_HOPS: usize = 8;

// Is it a session number?
pub(crate) fn ask_number(number: u32) -> Result<u16, Declined>
    ensures { result ≡ and_then (ask_number number) (λ _. Ok number) }
{
    match u16::try_from(number) {
        Ok(number) if number > 0 => Ok(number),
        _ => Err(by_fabric(Reason::BadNumber, 0)),
    }
}

// Can the level and the weight be served?
pub(crate) fn ask_service(level: u32, weight: u32) -> Result<Service, Declined>
    ensures { result ≡ or_declined (service_for level weight) }
{
    Service::asked(level, weight).map_err(|reason| by_fabric(reason, 0))
}

// Whether a port is below the count and not listed before.
fn hop_fits(count: usize, port: usize, before: &[usize]) -> bool
    ensures { result ≡ (nat_lt port count && not (among port before.now)) }
{
    port < count && !before.contains(&port)
}

// The same question at each of a list: the first place with the answer no declines.
pub(crate) fn ask_each<T, Q: Fn(usize, &T) -> bool, D: Fn(usize) -> Declined>(
    list: &[T],
    question: Q,
    declined: D,
) -> Result<(), Declined>
    requires asked { (place : ℕ) (x : _) → slice_get list.now place ≡ Some x.now → Q.pre question place x }
    requires declines { D.IsAlwaysCallable declined }
    ensures { (test : ℕ → T → Bool) (decline : ℕ → Declined) → Answers (Q.post question) test list.now → Declines (D.post declined) decline → result ≡ ask_each test decline 0 list.now }
{
    for (place, item) in list.iter().enumerate() {
        if !question(place, item) {
            return Err(declined(place));
        }
    }
    Ok(())
}

// Does every hop fit?
fn ask_hops(count: usize, path: &[usize]) -> Result<(), Declined>
    ensures { result ≡ ask_hops count path.now }
{
    ask_each(
        path,
        |hop, port| hop_fits(count, *port, &path[..hop]),
        |hop| by_fabric(Reason::BadPath, hop),
    )
}

// Has the path 1 to 8 ports, each below the count and none listed before?
pub(crate) fn ask_path(count: usize, path: &[usize]) -> Result<(), Declined>
    ensures { result ≡ ask_path count path.now }
{
    if path.is_empty() {
        return Err(by_fabric(Reason::BadPath, 0));
    }
    if path.len() > MOST_HOPS {
        return Err(by_fabric(Reason::BadPath, MOST_HOPS));
    }
    ask_hops(count, path)
}

// Whether a port of the bank is open; one that is not there is not.
pub(crate) fn is_open<B: Bank>(bank: &B, port: usize) -> bool
    ensures { result ≡ (port_at (B.ports bank.now) port).«open» }
{
    bank.is_open(port).unwrap_or(false)
}

// Is every port on the path open?
pub(crate) fn ask_open<B: Bank>(bank: &B, path: &[usize]) -> Result<(), Declined>
    ensures { result ≡ ask_open (B.ports bank.now) path.now }
{
    ask_each(path, |_, port| is_open(bank, *port), port_shut)
}

// A session that may enter the books, with what it is given.
#[derive(Clone, Copy)]
pub(crate) struct Admission {
    pub(crate) service: Service,
    pub(crate) session: Session,
}
