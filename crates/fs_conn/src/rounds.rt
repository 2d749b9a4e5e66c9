//! One round of a conversation: what waits goes out, and then comes a block or a read.

ghost use Rattle.std.specs.Prelude.{◌≡◌, ◌++◌, List, ℕ, IfOk};
ghost use Rattle.fs_ports.specs.Ports.{Input};
ghost use Rattle.fs_frame.specs.Block.{IsBlock};
ghost use Rattle.fs_book.specs.Passes.{seen, mine, met, parts, opening_state, IsPassOf};
ghost use Rattle.fs_machine.specs.Laws.{state_after};
ghost use Rattle.fs_machine.specs.Standing.{standing_of};
ghost use Rattle.fs_machine.specs.Turned.{configured};
ghost use Rattle.fs_conn.specs.Steps.{MayBeFed, HoldsLittle};
ghost use Rattle.fs_conn.specs.Owning.{OwnsConn};
ghost use Rattle.fs_conn.specs.Talks.{Point, point, Holds, GoesOn, Gets, Handles, Hung, Departed, Rounds};
ghost use Rattle.fs_conn.specs.Talks.{IfTried, NeedsMore, LacksBlock, HoldsBehind, tried_of};

use crate::closing::{depart, hang_up};
use crate::end::End;
use crate::handing::{attempt, hand_next};
use crate::owner::look;
use crate::round::{Piece, Round};
use crate::stop::Stop;
use fs_book::{Book, Pass};
use fs_frame::{Blocks, Next};
use fs_machine::{Act, Machine, Standing};
use fs_ports::{Clock, Link, Read};
use fs_text::Txt;
use std::alloc::Global;
use std::sync::Wait;

/// How many bytes a read takes at most.
const MOST_BYTES: usize = 4_096;

// Reads once. It is called only where more is needed for a block.
fn get<L: Link>(blocks: &mut Blocks, link: &mut L) -> Result<Piece, Stop>
    requires may { MayBeFed blocks.old }
    ensures gets { Gets (L.input link.old) (L.input link.new) blocks.old blocks.new result }
    ensures output { L.output link.new ≡ L.output link.old }
    ensures little { HoldsLittle blocks.new }
{
    let mut buf = [0; MOST_BYTES];
    match link.read(&mut buf) {
        Read::Got(n) => match blocks.feed(&buf[..n]) {
            Ok(()) => Ok(Piece::More),
            Err(_) => Err(Stop::OutOfMemory),
        },
        Read::NotYet => Ok(Piece::NotYet),
        Read::End => Ok(Piece::AtEnd),
        Read::Failed => Ok(Piece::Failed),
    }
}

// Enters a command.
fn handle<R: Wait, C: Clock, L: Link>(
    rt: &R,
    book: &Book<Machine>,
    pass: &mut Pass<Machine>,
    alloc: Global,
    conn: u32,
    clock: &C,
    block: &[u8],
    link: &mut L,
) -> Result<Round, Stop>
    requires book { IsPassOf configured book.now pass.old }
    requires owns { OwnsConn (configured (opening_state book.now)) conn (seen pass.old) (mine pass.old) }
    requires block { IsBlock block.now }
    ensures book { IsPassOf configured book.now pass.new }
    ensures owns { OwnsConn (configured (opening_state book.now)) conn (seen pass.new) (mine pass.new) }
    ensures kept { (met pass.new ≡ met pass.old) × (parts pass.new ≡ parts pass.old) }
    ensures input { L.input link.new ≡ L.input link.old }
    ensures handles { (from : Point) (rest : List ℕ)
        → Holds (C.tells clock.now) (configured (opening_state book.now)) conn from
        (point (seen pass.old) (mine pass.old) (L.input link.old) (L.output link.old)) (block.now ++ rest)
        → Handles (C.tells clock.now) (configured (opening_state book.now)) conn block.now from
        (point (seen pass.new) (mine pass.new) (L.input link.new) (L.output link.new)) rest result }
{
    let Ok(command) = Txt::of(alloc, block) else {
        return Err(Stop::OutOfMemory);
    };
    match attempt(
        rt,
        book,
        pass,
        conn,
        clock,
        Act::Command {
            conn,
            block: command,
        },
    ) {
        Ok(Some(_)) => return Ok(Round::GoOn),
        Ok(None) => {}
        Err(stop) => return Err(stop),
    }
    leave(rt, book, pass, conn, clock, link)
}

// Ends a conversation that was made to read no further command.
fn leave<R: Wait, C: Clock, L: Link>(
    rt: &R,
    book: &Book<Machine>,
    pass: &mut Pass<Machine>,
    conn: u32,
    clock: &C,
    link: &mut L,
) -> Result<Round, Stop>
    requires book { IsPassOf configured book.now pass.old }
    requires owns { OwnsConn (configured (opening_state book.now)) conn (seen pass.old) (mine pass.old) }
    ensures book { IsPassOf configured book.now pass.new }
    ensures owns { OwnsConn (configured (opening_state book.now)) conn (seen pass.new) (mine pass.new) }
    ensures kept { (met pass.new ≡ met pass.old) × (parts pass.new ≡ parts pass.old) }
    ensures input { L.input link.new ≡ L.input link.old }
    ensures departed { (from : Point) (rest : List ℕ)
        → Holds (C.tells clock.now) (configured (opening_state book.now)) conn from
        (point (seen pass.old) (mine pass.old) (L.input link.old) (L.output link.old)) rest
        → Departed (C.tells clock.now) (configured (opening_state book.now)) conn from
        (point (seen pass.new) (mine pass.new) (L.input link.new) (L.output link.new)) rest result }
{
    match depart(rt, book, pass, conn, clock, link) {
        Ok(end) => Ok(Round::Done(end)),
        Err(stop) => Err(stop),
    }
}

// Ends a conversation for this reason.
fn ended<R: Wait, C: Clock, L: Link>(
    rt: &R,
    book: &Book<Machine>,
    pass: &mut Pass<Machine>,
    conn: u32,
    clock: &C,
    link: &mut L,
    end: End,
) -> Result<Round, Stop>
    requires book { IsPassOf configured book.now pass.old }
    requires owns { OwnsConn (configured (opening_state book.now)) conn (seen pass.old) (mine pass.old) }
    ensures book { IsPassOf configured book.now pass.new }
    ensures owns { OwnsConn (configured (opening_state book.now)) conn (seen pass.new) (mine pass.new) }
    ensures kept { (met pass.new ≡ met pass.old) × (parts pass.new ≡ parts pass.old) }
    ensures input { L.input link.new ≡ L.input link.old }
    ensures hung { (from : Point) (rest : List ℕ)
        → Holds (C.tells clock.now) (configured (opening_state book.now)) conn from
        (point (seen pass.old) (mine pass.old) (L.input link.old) (L.output link.old)) rest
        → Hung (C.tells clock.now) (configured (opening_state book.now)) conn end from
        (point (seen pass.new) (mine pass.new) (L.input link.new) (L.output link.new)) rest result }
{
    match hang_up(rt, book, pass, conn, clock, link, end) {
        Ok(end) => Ok(Round::Done(end)),
        Err(stop) => Err(stop),
    }
}

// Enters the block in front as a command, or ends where none can come. None where more has to be read first.
fn enter_next<R: Wait, C: Clock, L: Link>(
    rt: &R,
    book: &Book<Machine>,
    pass: &mut Pass<Machine>,
    alloc: Global,
    conn: u32,
    clock: &C,
    blocks: &mut Blocks,
    link: &mut L,
) -> Result<Option<Round>, Stop>
    requires book { IsPassOf configured book.now pass.old }
    requires owns { OwnsConn (configured (opening_state book.now)) conn (seen pass.old) (mine pass.old) }
    requires little { HoldsLittle blocks.old }
    ensures book { IsPassOf configured book.now pass.new }
    ensures owns { OwnsConn (configured (opening_state book.now)) conn (seen pass.new) (mine pass.new) }
    ensures kept { (met pass.new ≡ met pass.old) × (parts pass.new ≡ parts pass.old) }
    ensures none { LacksBlock blocks.new.rest result }
    ensures turns { (from : Point)
        → Holds (C.tells clock.now) (configured (opening_state book.now)) conn from
        (point (seen pass.old) (mine pass.old) (L.input link.old) (L.output link.old)) blocks.old.rest
        → (L.input link.old).faults ≡ from.input.faults
        → IfTried (C.tells clock.now) (configured (opening_state book.now)) conn from
        (point (seen pass.new) (mine pass.new) (L.input link.new) (L.output link.new)) blocks.new.rest result }
    ensures held { HoldsBehind blocks.new result }
{
    match blocks.next_block() {
        Next::Block(block) => {
            let bytes = block.bytes();
            tried(handle(rt, book, pass, alloc, conn, clock, bytes, link))
        }
        Next::NeedMore => Ok(None),
        Next::TooLong { len } => {
            let end = End::TooLong { len };
            tried(ended(rt, book, pass, conn, clock, link, end))
        }
        Next::BadLength => tried(ended(rt, book, pass, conn, clock, link, End::BadLength)),
    }
}

// What a part of a round came to that was tried.
fn tried(round: Result<Round, Stop>) -> Result<Option<Round>, Stop>
    ensures { result ≡ tried_of round }
{
    match round {
        Ok(round) => Ok(Some(round)),
        Err(stop) => Err(stop),
    }
}

// Enters the block in front where bytes have come, if one is whole by them.
fn enter_read<R: Wait, C: Clock, L: Link>(
    rt: &R,
    book: &Book<Machine>,
    pass: &mut Pass<Machine>,
    alloc: Global,
    conn: u32,
    clock: &C,
    blocks: &mut Blocks,
    link: &mut L,
) -> Result<Round, Stop>
    requires book { IsPassOf configured book.now pass.old }
    requires owns { OwnsConn (configured (opening_state book.now)) conn (seen pass.old) (mine pass.old) }
    requires little { HoldsLittle blocks.old }
    ensures book { IsPassOf configured book.now pass.new }
    ensures owns { OwnsConn (configured (opening_state book.now)) conn (seen pass.new) (mine pass.new) }
    ensures kept { (met pass.new ≡ met pass.old) × (parts pass.new ≡ parts pass.old) }
    ensures turns { (from : Point)
        → Holds (C.tells clock.now) (configured (opening_state book.now)) conn from
        (point (seen pass.old) (mine pass.old) (L.input link.old) (L.output link.old)) blocks.old.rest
        → (L.input link.old).faults ≡ from.input.faults
        → Rounds (C.tells clock.now) (configured (opening_state book.now)) conn from
        (point (seen pass.new) (mine pass.new) (L.input link.new) (L.output link.new)) blocks.new.rest result }
    ensures little { HoldsLittle blocks.new }
{
    match enter_next(rt, book, pass, alloc, conn, clock, blocks, link) {
        Ok(Some(round)) => Ok(round),
        Ok(None) => Ok(Round::GoOn),
        Err(stop) => Err(stop),
    }
}

// Reads, where no block stands in front, and enters what came. None where nothing came yet.
fn read_on<R: Wait, C: Clock, L: Link>(
    rt: &R,
    book: &Book<Machine>,
    pass: &mut Pass<Machine>,
    alloc: Global,
    conn: u32,
    clock: &C,
    blocks: &mut Blocks,
    link: &mut L,
) -> Result<Option<Round>, Stop>
    requires book { IsPassOf configured book.now pass.old }
    requires owns { OwnsConn (configured (opening_state book.now)) conn (seen pass.old) (mine pass.old) }
    requires none { NeedsMore blocks.old.rest }
    requires may { MayBeFed blocks.old }
    ensures book { IsPassOf configured book.now pass.new }
    ensures owns { OwnsConn (configured (opening_state book.now)) conn (seen pass.new) (mine pass.new) }
    ensures kept { (met pass.new ≡ met pass.old) × (parts pass.new ≡ parts pass.old) }
    ensures none { LacksBlock blocks.new.rest result }
    ensures turns { (from : Point)
        → Holds (C.tells clock.now) (configured (opening_state book.now)) conn from
        (point (seen pass.old) (mine pass.old) (L.input link.old) (L.output link.old)) blocks.old.rest
        → (L.input link.old).faults ≡ from.input.faults
        → IfTried (C.tells clock.now) (configured (opening_state book.now)) conn from
        (point (seen pass.new) (mine pass.new) (L.input link.new) (L.output link.new)) blocks.new.rest result }
    ensures held { HoldsBehind blocks.new result }
{
    match get(blocks, link) {
        Ok(Piece::More) => tried(enter_read(rt, book, pass, alloc, conn, clock, blocks, link)),
        Ok(Piece::NotYet) => Ok(None),
        Ok(Piece::AtEnd) => tried(ended(rt, book, pass, conn, clock, link, End::Eof)),
        Ok(Piece::Failed) => tried(ended(rt, book, pass, conn, clock, link, End::ReadFault)),
        Err(stop) => Err(stop),
    }
}

// Reads, where no block stands in front. Where nothing came yet it naps, and then tries once more, since most naps end
// when bytes come.
fn read_more<R: Wait, C: Clock, L: Link>(
    rt: &R,
    book: &Book<Machine>,
    pass: &mut Pass<Machine>,
    alloc: Global,
    conn: u32,
    clock: &C,
    blocks: &mut Blocks,
    link: &mut L,
) -> Result<Round, Stop>
    requires book { IsPassOf configured book.now pass.old }
    requires owns { OwnsConn (configured (opening_state book.now)) conn (seen pass.old) (mine pass.old) }
    requires none { NeedsMore blocks.old.rest }
    requires may { MayBeFed blocks.old }
    ensures book { IsPassOf configured book.now pass.new }
    ensures owns { OwnsConn (configured (opening_state book.now)) conn (seen pass.new) (mine pass.new) }
    ensures kept { (met pass.new ≡ met pass.old) × (parts pass.new ≡ parts pass.old) }
    ensures turns { (from : Point)
        → Holds (C.tells clock.now) (configured (opening_state book.now)) conn from
        (point (seen pass.old) (mine pass.old) (L.input link.old) (L.output link.old)) blocks.old.rest
        → (L.input link.old).faults ≡ from.input.faults
        → Rounds (C.tells clock.now) (configured (opening_state book.now)) conn from
        (point (seen pass.new) (mine pass.new) (L.input link.new) (L.output link.new)) blocks.new.rest result }
    ensures little { HoldsLittle blocks.new }
{
    match read_on(rt, book, pass, alloc, conn, clock, blocks, link) {
        Ok(Some(round)) => return Ok(round),
        Ok(None) => clock.nap(),
        Err(stop) => return Err(stop),
    }
    match read_on(rt, book, pass, alloc, conn, clock, blocks, link) {
        Ok(Some(round)) => Ok(round),
        Ok(None) => Ok(Round::GoOn),
        Err(stop) => Err(stop),
    }
}

// Takes and writes the next frame, if one waits, and says how the connection stands then.
fn hand_over<R: Wait, C: Clock, L: Link>(
    rt: &R,
    book: &Book<Machine>,
    pass: &mut Pass<Machine>,
    conn: u32,
    clock: &C,
    link: &mut L,
) -> Result<Standing, Stop>
    requires book { IsPassOf configured book.now pass.old }
    requires owns { OwnsConn (configured (opening_state book.now)) conn (seen pass.old) (mine pass.old) }
    ensures book { IsPassOf configured book.now pass.new }
    ensures owns { OwnsConn (configured (opening_state book.now)) conn (seen pass.new) (mine pass.new) }
    ensures kept { (met pass.new ≡ met pass.old) × (parts pass.new ≡ parts pass.old) }
    ensures input { L.input link.new ≡ L.input link.old }
    ensures hands { (from : Point) (rest : List ℕ)
        → Holds (C.tells clock.now) (configured (opening_state book.now)) conn from
        (point (seen pass.old) (mine pass.old) (L.input link.old) (L.output link.old)) rest
        → GoesOn (C.tells clock.now) (configured (opening_state book.now)) conn from
        (point (seen pass.new) (mine pass.new) (L.input link.new) (L.output link.new)) rest result }
    ensures stands { IfOk result
        (λ standing. standing ≡ standing_of conn (state_after (configured (opening_state book.now)) (seen pass.new))) }
{
    match hand_next(rt, book, pass, conn, clock, link) {
        Ok(Some(standing)) => Ok(standing),
        Ok(None) => Ok(look(rt, book, pass, conn)),
        Err(stop) => Err(stop),
    }
}

/// Writes a frame that waits, or enters a command or reads more; or ends.
pub(crate) fn take_round<R: Wait, C: Clock, L: Link>(
    rt: &R,
    book: &Book<Machine>,
    pass: &mut Pass<Machine>,
    alloc: Global,
    conn: u32,
    clock: &C,
    blocks: &mut Blocks,
    link: &mut L,
) -> Result<Round, Stop>
    requires book { IsPassOf configured book.now pass.old }
    requires owns { OwnsConn (configured (opening_state book.now)) conn (seen pass.old) (mine pass.old) }
    requires little { HoldsLittle blocks.old }
    ensures book { IsPassOf configured book.now pass.new }
    ensures owns { OwnsConn (configured (opening_state book.now)) conn (seen pass.new) (mine pass.new) }
    ensures kept { (met pass.new ≡ met pass.old) × (parts pass.new ≡ parts pass.old) }
    ensures turns { (from : Point)
        → Holds (C.tells clock.now) (configured (opening_state book.now)) conn from
        (point (seen pass.old) (mine pass.old) (L.input link.old) (L.output link.old)) blocks.old.rest
        → (L.input link.old).faults ≡ from.input.faults
        → Rounds (C.tells clock.now) (configured (opening_state book.now)) conn from
        (point (seen pass.new) (mine pass.new) (L.input link.new) (L.output link.new)) blocks.new.rest result }
    ensures little { HoldsLittle blocks.new }
{
    let standing = match hand_over(rt, book, pass, conn, clock, link) {
        Ok(standing) => standing,
        Err(stop) => return Err(stop),
    };
    if standing.waits {
        return Ok(Round::GoOn);
    }
    if !standing.reads {
        return leave(rt, book, pass, conn, clock, link);
    }
    if standing.owed {
        clock.nap();
        return Ok(Round::GoOn);
    }
    match enter_next(rt, book, pass, alloc, conn, clock, blocks, link) {
        Ok(Some(round)) => Ok(round),
        Ok(None) => read_more(rt, book, pass, alloc, conn, clock, blocks, link),
        Err(stop) => Err(stop),
    }
}
