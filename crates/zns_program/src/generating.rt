ghost use Rattle.std.specs.Prelude.{◌≡◌, ◌<◌, ◌≤◌, ◌^◌, false, All, IfOk};
ghost use Rattle.sqe_codec.specs.Ranges.{IsWritable};
ghost use Rattle.sqe_codec.specs.Writing.{is_admin};
ghost use Rattle.zns_program.specs.Generating.{made_geometry, next, nth_next, drawn, made_command, made_act, made_acts, made, act_of, MovesOneBlock, IsOneBlock};

use session_file::Session;
use sqe_codec::{Cmd, transfer_len, write};
use std::alloc::Global;
use zns_io::{Bytes, NoMemory};
use zns_types::{Geometry, GeometryFields};
use zone_model::{Act, Acts};

const DRIVE: GeometryFields = GeometryFields {
    block_exp: 9,
    mdts: 5,
    zasl: 3,
    flags: 1,
    zones: 64,
    zone_size: 4096,
    capacity: 4032,
    active_limit: 14,
    open_limit: 8,
    windows: 4,
    granule: 16,
    window: 64,
    queues: 4,
    depth: 64,
};

// The Zone Send Actions that are made.
const FINISH: u8 = 0x02;

const OPEN: u8 = 0x03;

const RESET: u8 = 0x04;

const COMMIT: u8 = 0x11;

// The namespace of every command.
const NSID: u32 = 1;

// The state of the number generator.
#[derive(Drop)]
struct Draws {
    state: u64,
}

impl Draws {
    // The next number.
    #[tactic(auto, unfolding(crate::specs::Generating::next))]
    fn draw(&mut self) -> u64
        ensures state { self.new.state ≡ next self.old.state }
        ensures drawn { result ≡ drawn 1 self.old.state }
        ensures small { result < 2 ^ 31 }
    {
        self.state = self
            .state
            .wrapping_mul(6_364_136_223_846_793_005)
            .wrapping_add(1_442_695_040_888_963_407);
        self.state >> 33
    }
}

// The drive of every made session.
fn made_geometry() -> Geometry
    ensures { result.fields ≡ made_geometry }
{
    Geometry { fields: DRIVE }
}

// A command to a zone, by its kind and a drawn number.
#[tactic(auto, unfolding(crate::specs::Generating::made_command))]
fn made_command(kind: u64, zone: u64, number: u64) -> Cmd
    requires { zone < 16 }
    ensures made { result ≡ made_command kind zone number }
    ensures writable { IsWritable result }
    ensures not_admin { is_admin result ≡ false }
    ensures one_block { MovesOneBlock result }
{
    let first = 4096 * zone;
    match kind {
        0..=5 => Cmd::Append {
            nsid: NSID,
            zslba: first,
            blocks: 1,
        },
        6 | 7 => Cmd::Read {
            nsid: NSID,
            slba: first + number % 4096,
            blocks: 1,
        },
        8 => made_send(OPEN, first, true),
        9..=11 => Cmd::Write {
            nsid: NSID,
            slba: first + number % 128,
            blocks: 1,
        },
        12 => made_send(COMMIT, first + 15 + 16 * (number % 4), false),
        13 => made_send(RESET, first, false),
        14 => made_send(FINISH, first, false),
        _ => Cmd::Receive {
            nsid: NSID,
            slba: first,
            bytes: 512,
            action: 0,
            filter: 0,
            partial: false,
        },
    }
}

// A Zone Management Send to the zone that holds a block.
fn made_send(action: u8, slba: u64, option: bool) -> Cmd
    ensures { result ≡ Cmd.Send 1 slba action false option }
{
    Cmd::Send {
        nsid: NSID,
        slba,
        action,
        all: false,
        option,
    }
}

// An act whose command moves at most one block, by its number, its queue, and the byte that fills
// its host data.
fn act_of(alloc: Global, number: u32, queue: u16, cmd: &Cmd, byte: u8) -> Result<Act, NoMemory>
    requires some_queue { 1 ≤ queue }
    requires queue { queue < 4 }
    requires writable { IsWritable cmd.now }
    requires not_admin { is_admin cmd.now ≡ false }
    requires one_block { MovesOneBlock cmd.now }
    ensures act { IfOk result (λ a. a ≡ act_of made_geometry number queue cmd.now byte) }
    ensures one_block { IfOk result IsOneBlock }
{
    let sqe = write(cmd, (number % 65_536) as u16);
    let len = transfer_len(&made_geometry(), false, &sqe);
    let payload = Bytes::filled(alloc, len, byte)?;
    Ok(Act {
        queue,
        sqe,
        payload,
    })
}

// The act with this number, by the next four drawn numbers.
#[tactic(auto, unfolding(crate::specs::Generating::made_act))]
fn made_act(alloc: Global, number: u32, draws: &mut Draws) -> Result<Act, NoMemory>
    ensures act { IfOk result (λ a. a ≡ made_act number draws.old.state) }
    ensures one_block { IfOk result IsOneBlock }
    ensures state { draws.new.state ≡ nth_next 4 draws.old.state }
{
    let queue = 1 + draws.draw() % 3;
    let kind = draws.draw() % 16;
    let zone = draws.draw() % 16;
    let last = draws.draw();
    let cmd = made_command(kind, zone, last);
    act_of(alloc, number, queue as u16, &cmd, (last % 256) as u8)
}

// The first `count` acts that `number` determines.
fn made_acts(alloc: Global, number: u64, count: u32) -> Result<Acts, NoMemory>
    ensures acts { IfOk result (λ l. l.acts ≡ made_acts count 0 number) }
    ensures one_block { IfOk result (λ l. All IsOneBlock l.acts) }
{
    let mut draws = Draws { state: number };
    let mut acts = Acts::new(alloc, count)?;
    for number in 0..count {
        let act = made_act(alloc, number, &mut draws)?;
        acts.push(act);
    }
    Ok(acts)
}

/// The session of `count` commands that `number` determines.
#[tactic(auto, unfolding(crate::specs::Generating::made))]
pub fn generate(alloc: Global, number: u64, count: u32) -> Result<Session, NoMemory>
    requires { count ≤ 262144 }
    ensures { IfOk result (λ s. s ≡ made number count) }
{
    let acts = made_acts(alloc, number, count)?;
    Ok(Session::new(made_geometry(), acts))
}
