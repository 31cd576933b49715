//! One read of a body, in parts: the coding before the data, and then the data once. Each part
//! answers the stage that it came to, and how many bytes of the message came by then, in 64 bits.
//! (Our own.)
ghost use Rattle.std.specs.Prelude.{◌≡◌, ℕ, ◌<◌, ◌≤◌, length, take, MatchResult, [], IfOk, IfErr};
ghost use Rattle.hr_body.specs.Fault.{FailsByDevice};
ghost use Rattle.hr_body.specs.Leading.{IsUnended};
ghost use Rattle.hr_body.specs.Reading.{BrokeOff, GavePiece, IsFound, Passed};
ghost use Rattle.hr_body.specs.Stage.{WantsData};

use crate::stepping::{behind_data, is_done, most_data, step};
use crate::{Stage, WireFault, read_byte};
use hr_cause::Source;

// Reads the coding up to data, or to the body's end.
fn find_data<L: Source>(link: &mut L, stage: Stage, at: u64) -> Result<(Stage, u64), WireFault>
    ensures ok { IfOk result (λ found.
        Passed (L.left link.old) stage at found.0 found.1 (L.left link.new)) }
    ensures found { IfOk result (λ found. IsFound found.0) }
    ensures err { IfErr result (λ why. (room limit : ℕ)
        → BrokeOff (L.left link.old) stage at room limit why (L.left link.new)) }
    ensures sent { L.sent link.new ≡ L.sent link.old }
    ensures cause { FailsByDevice (L.faults link.old) (L.faults link.new) result }
{
    let mut stage = stage;
    let mut at = at;
    while let Stage::Between(coding) = stage {
        let Some(byte) = read_byte(link)? else {
            return Err(WireFault::Ended { at });
        };
        at = at.saturating_add(1);
        let Some(next) = step(coding, byte) else {
            return Err(WireFault::Malformed { at });
        };
        stage = next;
    }
    Ok((stage, at))
}

// What the end of the device means where data may come: the end of the body, or a fault.
fn end_in_data(stage: Stage, at: u64) -> Result<(usize, Stage, u64), WireFault>
    requires { WantsData stage }
    ensures { MatchResult result
        (λ ended. (stage ≡ Stage.ToEnd) × (ended.0 ≡ 0) × (ended.1 ≡ Stage.Done) × (ended.2 ≡ at))
        (λ why. (why ≡ WireFault.Ended at) × IsUnended stage) }
{
    match stage {
        Stage::ToEnd => Ok((0, Stage::Done, at)),
        _ => Err(WireFault::Ended { at }),
    }
}

// Asks for the byte behind all that the limit lets through: there is none, or it is too long.
fn read_past<L: Source>(
    link: &mut L,
    stage: Stage,
    at: u64,
    limit: u64,
) -> Result<(usize, Stage, u64), WireFault>
    requires { WantsData stage }
    ensures ok { IfOk result (λ ended. (ended.0 ≡ 0) × (ended.1 ≡ Stage.Done)
        × GavePiece (L.left link.old) stage at [] ended.1 ended.2 (L.left link.new)) }
    ensures err { IfErr result (λ why.
        BrokeOff (L.left link.old) stage at 0 limit why (L.left link.new)) }
    ensures sent { L.sent link.new ≡ L.sent link.old }
    ensures cause { FailsByDevice (L.faults link.old) (L.faults link.new) result }
{
    match read_byte(link)? {
        None => end_in_data(stage, at),
        Some(_) => Err(WireFault::TooLong {
            len: limit.saturating_add(1),
        }),
    }
}

// Reads data once, at most as much as the body may still have.
fn take_data<L: Source>(
    link: &mut L,
    stage: Stage,
    at: u64,
    room: u64,
    limit: u64,
    buf: &mut [u8],
) -> Result<(usize, Stage, u64), WireFault>
    requires stage { WantsData stage }
    requires buf { 0 < length buf.old }
    ensures ok { IfOk result (λ taken. GavePiece (L.left link.old) stage at
        (take taken.0 buf.new) taken.1 taken.2 (L.left link.new)) }
    ensures within { IfOk result (λ taken. (taken.0 ≤ room) × (taken.0 ≤ length buf.new)) }
    ensures end { IfOk result (λ taken. taken.0 ≡ 0 → taken.1 ≡ Stage.Done) }
    ensures err { IfErr result (λ why.
        BrokeOff (L.left link.old) stage at room limit why (L.left link.new)) }
    ensures sent { L.sent link.new ≡ L.sent link.old }
    ensures cause { FailsByDevice (L.faults link.old) (L.faults link.new) result }
{
    if room == 0 {
        return read_past(link, stage, at, limit);
    }
    let most = most_data(stage).min(room).min(buf.len() as u64) as usize;
    let count = link.read(&mut buf[..most])?;
    if count == 0 {
        return end_in_data(stage, at);
    }
    let next = behind_data(stage, count as u64);
    Ok((count, next, at.saturating_add(count as u64)))
}

/// Reads the coding up to data, and then data once: how much there is at the front of the buffer.
/// For an empty buffer it reads nothing, and so it does at the body's end.
pub(crate) fn read_piece<L: Source>(
    link: &mut L,
    stage: Stage,
    at: u64,
    room: u64,
    limit: u64,
    buf: &mut [u8],
) -> Result<(usize, Stage, u64), WireFault>
    ensures ok { IfOk result (λ piece. GavePiece (L.left link.old) stage at
        (take piece.0 buf.new) piece.1 piece.2 (L.left link.new)) }
    ensures within { IfOk result (λ piece. (piece.0 ≤ room) × (piece.0 ≤ length buf.new)) }
    ensures end { IfOk result (λ piece.
        piece.0 ≡ 0 → 0 < length buf.old → piece.1 ≡ Stage.Done) }
    ensures err { IfErr result (λ why.
        BrokeOff (L.left link.old) stage at room limit why (L.left link.new)) }
    ensures over { stage ≡ Stage.Done
        → (result ≡ Ok (record { 0 = 0; 1 = stage; 2 = at })) × (link.new ≡ link.old) }
    ensures sent { L.sent link.new ≡ L.sent link.old }
    ensures cause { FailsByDevice (L.faults link.old) (L.faults link.new) result }
{
    if buf.is_empty() || is_done(stage) {
        return Ok((0, stage, at));
    }
    let (found, so_far) = find_data(link, stage, at)?;
    if is_done(found) {
        return Ok((0, found, so_far));
    }
    take_data(link, found, so_far, room, limit, buf)
}
