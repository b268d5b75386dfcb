// A lent control block: what its bytes say, the checks on the block alone (1 to 8), and what is written to it. A block is
// any number of bytes; none past them is read or written.
#![tactic(auto)]

ghost use Rattle.std.specs.Prelude.{◌≡◌, ◌+◌, ◌≤◌, true, false, length, MatchResult};
ghost use Rattle.board.specs.Plain.{first_that_applies};
ghost use Rattle.board.specs.Block.{byte, two, four, word, signed, whole_block, fields, request, with_status, with_told};
ghost use Rattle.board.specs.TakingIn.{accept};
ghost use Rattle.block.specs.Checked.{examined, checks_from_4, examined_says, table_says};
ghost use Rattle.block.specs.HandedOver.{HandedOver};

use board::{Cdb, Finished, Refusal, Request, Ticket, Told, Unit};

// Private data begins at 88: a whole block has at least as many bytes.
const WHOLE_BLOCK: usize = 88;

// ---- numbers in a block

// The two bytes from i on.
fn two_bytes(block: &[u8], i: usize) -> u16
    requires { i + 2 ≤ length block.now }
    ensures { result ≡ two i block.now }
{
    u16::from_le_bytes([block[i], block[i + 1]])
}

// The four bytes from i on.
fn four_bytes(block: &[u8], i: usize) -> u32
    requires { i + 4 ≤ length block.now }
    ensures { result ≡ four i block.now }
{
    u32::from_le_bytes([block[i], block[i + 1], block[i + 2], block[i + 3]])
}

// A number in two's complement of 32 bits.
#[tactic(auto, using(crate::proofs::Numbers::word_is))]
pub fn word_of(r: i32) -> u32
    ensures { result ≡ word r }
{
    r.cast_unsigned()
}

// The number that such a word stands for.
#[tactic(auto, using(crate::proofs::Numbers::signed_is))]
pub fn signed_of(x: u32) -> i32
    ensures { result ≡ signed x }
{
    x.cast_signed()
}

// ---- the checks

// One check: the refusal where it applies.
fn check(applies: bool, why: Refusal) -> Result<(), Refusal>
    ensures { MatchResult result (λ _. applies ≡ false) (λ e. (applies ≡ true) × (e ≡ why)) }
{
    if applies { Err(why) } else { Ok(()) }
}

// Checks 4 to 8. (From here on a whole block is asked for: `examine` alone tests it, and a type for it would be made and taken apart
// there.)
#[tactic(auto, using(crate::proofs::Numbers::refused_flags), unfolding(crate::specs::Checked::checks_from_4, board::specs::Plain::first_that_applies, board::specs::Block::fields, board::specs::TakingIn::wrong_cdb_length, board::specs::TakingIn::checks_of_block))]
fn checks_from_4(block: &[u8]) -> Result<(), Refusal>
    requires { whole_block ≤ length block.now }
    ensures { table_says result ≡ first_that_applies (checks_from_4 block.now) accept }
{
    let path = block[9];
    let target = block[10];
    let lun = block[11];
    let flags = block[12];
    let cdb_length = block[45];
    let data_length = four_bytes(block, 36);
    let scatter_gather = flags & 0x10 != 0;
    let tag_queue_action = flags & 0x02 != 0;
    let linked = flags & 0x04 != 0;
    let pointer = flags & 0x01 != 0;
    let unprovided = scatter_gather | tag_queue_action | linked | pointer;
    check(path != 0, Refusal::InvalidPath)?;
    check((6 < target) | (7 < lun), Refusal::InvalidRequest)?;
    check(unprovided, Refusal::CannotProvide)?;
    check(
        (cdb_length == 0) | (12 < cdb_length),
        Refusal::InvalidRequest,
    )?;
    check(0xFFFFFF < data_length, Refusal::CannotProvide)
}

// The 12 CDB bytes.
#[tactic(auto, unfolding(board::specs::Block::fields))]
fn cdb_of(block: &[u8]) -> Cdb
    requires { 72 ≤ length block.now }
    ensures { result ≡ (fields block.now).cdb }
{
    Cdb {
        first: four_bytes(block, 60),
        second: four_bytes(block, 64),
        third: four_bytes(block, 68),
    }
}

// What the board needs of the block. (Inlined: else a request is written out and read again, and taking in takes a quarter longer.)
#[inline(always)]
fn request_of(block: &[u8], ticket: Ticket) -> Request
    requires { (whole_block ≤ length block.now) × (byte 10 block.now ≤ 6) × (byte 11 block.now ≤ 7) }
    ensures { result ≡ request ticket (fields block.now) }
{
    let target = block[10];
    let lun = block[11];
    let flags = block[12];
    let sense = block[44];
    let address = four_bytes(block, 0);
    let callback = four_bytes(block, 28);
    let length = four_bytes(block, 36);
    let timeout = four_bytes(block, 72);
    let cdb = cdb_of(block);
    let callback_disabled = flags & 0x08 != 0;
    let autosense_disabled = flags & 0x20 != 0;
    let unit = Unit(target * 8 + lun);
    Request {
        ticket,
        unit,
        address,
        callback,
        wanted: !callback_disabled,
        length,
        sense,
        autosense: !autosense_disabled,
        timeout,
        cdb,
    }
}

// What a block asks for that passes the checks on it alone: the request, and whether it goes to the front.
#[derive(Clone, Copy)]
pub struct Passed {
    pub request: Request,
    pub front: bool,
}

// Checks 1 to 8, each only where the bytes that it looks at are lent.
#[tactic(auto, unfolding(crate::specs::Checked::examined, crate::specs::Checked::outcome_of, crate::specs::Checked::checks_from_4, board::specs::Plain::first_that_applies, board::specs::Block::fields, board::specs::TakingIn::checks_of_block))]
pub fn examine(block: &[u8], ticket: Ticket) -> Result<Passed, Refusal>
    ensures { examined_says result ≡ examined ticket block.now }
{
    let lent = block.len();
    check(lent < 8, Refusal::LengthInadequate)?;
    check(block[6] != 0x01, Refusal::InvalidRequest)?;
    let length = usize::from(two_bytes(block, 4));
    let inadequate = (length < WHOLE_BLOCK) | (lent < length);
    check(inadequate, Refusal::LengthInadequate)?;
    checks_from_4(block)?;
    let request = request_of(block, ticket);
    let front = block[13] & 0x10 != 0;
    Ok(Passed { request, front })
}

// ---- what is written

// Byte 7 becomes n, and nothing else is written; nothing at all where fewer than 8 bytes are lent.
#[tactic(auto, unfolding(board::specs::Block::with_status))]
pub fn write_status(block: &mut [u8], n: u8)
    ensures { block.new ≡ with_status n block.old }
{
    if block.len() < 8 {
        return;
    }
    block[7] = n;
}

// Bytes 7, 52, 53 and 56 to 59 are written, and no others.
fn tell(block: &mut [u8], told: Told)
    requires { whole_block ≤ length block.old }
    ensures { block.new ≡ with_told told block.old }
{
    block[7] = told.status;
    block[52] = told.scsi;
    block[53] = told.unsensed;
    block[56..60].copy_from_slice(&told.residual.to_le_bytes());
}

// A finished request's block is told what is to be told; a block that is not its own is left as it was. Whether it is
// its own: a whole block with the request's address in bytes 0 to 3. (A bool: `NotHanded` has a case that
// can't be here.)
#[tactic(auto, unfolding(board::specs::Calls::not_its_block))]
pub fn hand_over(block: &mut [u8], x: Finished) -> bool
    ensures { HandedOver result block.new block.old x }
{
    if block.len() < WHOLE_BLOCK {
        return false;
    }
    if four_bytes(block, 0) != x.request.address {
        return false;
    }
    tell(block, x.told);
    true
}
