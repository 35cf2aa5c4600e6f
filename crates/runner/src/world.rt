// What a script runs on.
ghost use Rattle.std.specs.Prelude.{◌≡◌, ◌<◌, map, take, length, slice_set, nat_lt, if◌then◌else◌};
ghost use Rattle.bank.specs.Records.{record_ports};
ghost use Rattle.fabric.specs.States.{meaning};
ghost use Rattle.lanes.specs.RingQueues.{ring_queues};
ghost use Rattle.fabric.specs.Declines.{by_bank};
ghost use Rattle.lanes.specs.OneLane.{lane_room};
ghost use Rattle.lanes.specs.Queues.{arrive_answer, arrive_after};
ghost use Rattle.manager.specs.Calls.{leaving, performed};
ghost use Rattle.text.specs.Rows.{row_of};
ghost use Rattle.table.specs.declared.refusal.Reason.TheVariants.{NoSuchPort};
ghost use Rattle.runner.specs.Commands.{ask_of, order_of};
ghost use Rattle.runner.specs.Worlds.{script_ports, most_hops, queues_at, joined_of, port_for, within, obeying, obeyed};

use crate::script::{Command, Request};
use bank::bank::Bank;
use bank::record::RecordBank;
use fabric::declined::Declined;
use fabric::fabric::Fabric;
use lanes::lanes::Lanes;
use lanes::ring_lanes::RingLanes;
use manager::call::{Answer, Call};
use manager::performing::perform;
use table::refusal::{Layer, Reason, Refusal};
use text::row::Row;

// A script runs on so many ports.
pub(crate) const PORTS: usize = 4;

// The most hops that a script's reserve has.
const HOPS: usize = 255;

// What a command came to: what the manager answered, or nothing more for a packet that joined.
pub(crate) type Came = Result<Option<Answer>, Declined>;

// The ports of a reserve's hops, at most as many as there can be.
fn ports_of(hops: &[u8]) -> Row<usize, HOPS>
    ensures { row_of result ≡ take most_hops hops.now }
{
    let mut ports = Row::empty(0);
    let most = hops.len().min(HOPS);
    for port in &hops[..most] {
        ports.push(*port as usize);
    }
    ports
}

// Performs a call.
fn serve(
    fabric: &mut Fabric,
    bank: &mut RecordBank,
    lanes: &mut RingLanes,
    request: &Request,
) -> Result<Answer, Declined>
    ensures { leaving result (meaning fabric.new) (record_ports bank.new) (ring_queues lanes.new) ≡ performed (meaning fabric.old) (record_ports bank.old) (ring_queues lanes.old) (within (ask_of request.now)) }
{
    match *request {
        Request::Start => perform(fabric, bank, lanes, &Call::start()),
        Request::Reserve {
            number,
            level,
            weight,
            hops,
        } => {
            let ports = ports_of(hops);
            let path = ports.as_slice();
            let call = Call::Reserve {
                number,
                level,
                weight,
                path,
            };
            perform(fabric, bank, lanes, &call)
        }
        Request::Release(number) => perform(fabric, bank, lanes, &Call::release(number)),
        Request::Shut(port) => perform(fabric, bank, lanes, &Call::shut(port)),
        Request::Reopen(port) => perform(fabric, bank, lanes, &Call::reopen(port)),
        Request::Pick(port) => perform(fabric, bank, lanes, &Call::pick(port)),
    }
}

// The port whose lanes a call is given: for a pick its own, or any where it is not there; for another call port 0, whose lanes it leaves alone (an Option would be taken apart by the same 0).
fn port_for(request: &Request) -> usize
    ensures value { result ≡ port_for (ask_of request.now) }
    ensures within { result < script_ports }
{
    match *request {
        Request::Pick(port) => port % PORTS,
        _ => 0,
    }
}

// What ring lanes answer to a packet.
fn joined_of(answer: Result<(), Refusal>) -> Came
    ensures { result ≡ joined_of answer }
{
    answer?;
    Ok(None)
}

// A packet joins a lane of a port.
fn arrive(lanes: &mut [RingLanes; PORTS], port: usize, lane: u8, length: u16) -> Came
    ensures came { result ≡ (if nat_lt port script_ports then joined_of (arrive_answer lane_room (queues_at (map ring_queues lanes.old) port) lane length) else Err (by_bank NoSuchPort 0)) }
    ensures after { map ring_queues lanes.new ≡ (if nat_lt port script_ports then slice_set (map ring_queues lanes.old) port (arrive_after lane_room (queues_at (map ring_queues lanes.old) port) lane length) else map ring_queues lanes.old) }
{
    if port >= PORTS {
        let refusal = Refusal::new(Layer::Bank, Reason::NoSuchPort, 0);
        return Err(Declined::from(refusal));
    }
    joined_of(lanes[port].arrive(lane, length))
}

// Carries out a command. A pick is given the lanes of its port, any other call those of port 0, which it leaves alone.
pub(crate) fn obey(
    fabric: &mut Fabric,
    bank: &mut RecordBank,
    lanes: &mut [RingLanes; PORTS],
    command: &Command,
) -> Came
    ensures { obeying result (meaning fabric.new) (record_ports bank.new) (map ring_queues lanes.new) ≡ obeyed (meaning fabric.old) (record_ports bank.old) (map ring_queues lanes.old) (order_of command.now) }
{
    match command {
        Command::Call(request) => {
            let port = port_for(request);
            serve(fabric, bank, &mut lanes[port], request).map(Some)
        }
        Command::Arrive { port, lane, length } => arrive(lanes, *port, *lane, *length),
    }
}
