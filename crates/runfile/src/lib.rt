// Run files: a block of 512 bytes read and written ("Run files", numbers 1, 8, 9 and 11).
#![tactic(auto)]

ghost use Rattle.std.specs.Prelude.{◌≡◌, true, cond, ◌&&◌, ◌+◌, ◌*◌, ◌/◌, ◌<◌, ◌≤◌, eqb, length, take, IfOk};
ghost use Rattle.std.proofs.lemmas.List.Edits.{sets};
ghost use Rattle.charts.specs.Numbers.{refusal_number, err_number};
ghost use Rattle.charts.specs.Layout.{actions_of};
ghost use Rattle.runfile.specs.Block.{weigh, total, plus, check_of, is_count, zeros, all_zero, count_in, head_of, head_fits, count_fits, read_block, block_fits, used_bytes};
ghost use Rattle.runfile.specs.Sums.{sums_of};
ghost use Rattle.runfile.specs.Write.{first_refusal, Called, write_number, Takes, block_with, written, sums_given};

use charts::Refusal;
use record::{decode, is_size, number_of, read_action};

const MODULUS: u32 = 65521;

// A block's head: "number, count and n".
#[derive(Clone, Copy)]
pub struct BlockHead {
    pub number: u32,
    pub count: u8,
    pub n: u8,
}

fn is_count(count: usize) -> bool
    ensures { result ≡ is_count count }
{
    0 < count && count < 32
}

// Adds a row of 16 bytes in columns: t is each column's sum, u adds up what t was before each row. In this order of the two sums the compiler adds many columns at once.
fn add_row(t: &mut [u32; 16], u: &mut [u32; 16], row: &[u8])
    requires t_len { (length t.old ≡ 16) × (length u.old ≡ 16) × (length row.now ≡ 16) }
    requires u_bound { total t.old + total u.old ≤ 4294967040 }
    ensures t_after { t.new ≡ plus t.old row.now }
    ensures u_after { u.new ≡ plus u.old t.old }
{
    for c in 0..16 {
        u[c] += t[c];
        t[c] += row[c] as u32;
    }
}

// The weighed sum of all rows: a column's sum times its place from 1 on, and 16 times for each row before.
fn columns(t: &[u32; 16], u: &[u32; 16]) -> u32
    requires t_len { (length t.now ≡ 16) × (length u.now ≡ 16) }
    requires t_bound { 16 * total u.now + weigh 0 t.now < 4294967296 }
    ensures { result ≡ 16 * total u.now + weigh 0 t.now }
{
    let mut sum: u32 = 0;
    for c in 0..16 {
        sum += 16 * u[c] + t[c] * (c as u32 + 1);
    }
    sum
}

// The weighed sum of bytes 0 to 495: 31 rows of 16, the last row first.
fn rows_sum(block: &[u8]) -> u32
    requires { length block.now ≡ 512 }
    ensures { result ≡ weigh 0 (take 496 block.now) }
{
    let mut t = [0u32; 16];
    let mut u = [0u32; 16];
    for k in 0..31 {
        let at = 480 - 16 * k;
        add_row(&mut t, &mut u, &block[at..at + 16]);
    }
    columns(&t, &u)
}

// The weighed sum of a few bytes, of which the first stands at that place of a block.
fn weighed(bytes: &[u8], at: u32) -> u32
    requires { at + length bytes.now ≤ 510 }
    ensures value { result ≡ weigh at bytes.now }
    ensures upper_bound { result ≤ 510 * (255 * length bytes.now) }
{
    let mut sum: u32 = 0;
    for i in 0..bytes.len() {
        sum += bytes[i] as u32 * (at + i as u32 + 1);
    }
    sum
}

// The check of a block. The sum fits 32 bits, so the modulus is taken once.
fn check_sum(block: &[u8]) -> u32
    requires { length block.now ≡ 512 }
    ensures { result ≡ check_of block.now }
{
    (rows_sum(block) + weighed(&block[496..510], 496)) % MODULUS
}

fn all_zero(bytes: &[u8]) -> bool
    ensures { result ≡ all_zero bytes.now }
{
    bytes.iter().all(|&b| b == 0)
}

// The head of a block looked at by 8, 9 and 1. A file's block is then looked at by 10 and by `count_fits`.
#[tactic(auto, unfolding(crate::specs::Block::head_of))]
pub fn read_head(block: &[u8]) -> Result<BlockHead, Refusal>
    ensures value { result ≡ head_of block.now }
    ensures head_fits { head_fits block.now result }
{
    if block.len() != 512 {
        return Err(Refusal::WrongLength);
    }
    if number_of(block[510], block[511], 0, 0) != check_sum(block) {
        return Err(Refusal::WrongCheck);
    }
    if !is_size(block[5]) {
        return Err(Refusal::WrongSize);
    }
    Ok(BlockHead {
        number: number_of(block[0], block[1], block[2], block[3]),
        count: block[4],
        n: block[5],
    })
}

// Whether 512 bytes are not refused by 11: the count, bytes 6 to 13 and every byte past the last action.
pub fn count_fits(block: &[u8]) -> bool
    ensures value { result ≡ count_fits block.now }
    ensures block_bound { result ≡ true → count_in block.now ≤ 31 }
{
    if block.len() != 512 {
        return false;
    }
    let count = block[4] as usize;
    if !is_count(count) {
        return false;
    }
    all_zero(&block[6..14]) && all_zero(&block[14 + 16 * count..510])
}

// A single block read by itself: looked at by 8, 9, 1 and 11.
#[tactic(auto, unfolding(crate::specs::Block::read_block))]
pub fn read_block(block: &[u8]) -> Result<BlockHead, Refusal>
    ensures value { result ≡ read_block block.now }
    ensures block_fits { block_fits block.now result }
{
    let head = read_head(block)?;
    if !count_fits(block) {
        return Err(Refusal::WrongCount);
    }
    Ok(head)
}

// The used action bytes of the caller's own block: bytes 14 to 14 + 16 × count, and none of a refused block.
#[tactic(auto, unfolding(crate::specs::Block::used_bytes))]
pub fn action_bytes(block: &[u8]) -> &[u8]
    ensures { result.now ≡ used_bytes block.now }
{
    match read_block(block) {
        Ok(head) => &block[14..14 + 16 * head.count as usize],
        Err(_) => &block[..0],
    }
}

// The sums of a block's actions: the k-th is that of the first k, 0 past the count. What 11 refuses has none.
pub fn action_sums(block: &[u8]) -> [u64; 31]
    ensures { result ≡ sums_of block.now }
{
    let mut sums = [0u64; 31];
    if !count_fits(block) {
        return sums;
    }
    let mut so_far: u32 = 0;
    for k in 0..block[4] as usize {
        let at = 14 + 16 * k;
        so_far += weighed(&block[at..at + 16], at as u32);
        sums[k] = (so_far % MODULUS) as u64;
    }
    sums
}

// What the writer looks at before the first action: 8, 1 and 11.
#[tactic(auto, unfolding(crate::specs::Write::write_number))]
fn look_at_call(size: usize, n: u8, records: &[u8]) -> Result<(), Refusal>
    ensures { Called size n records.now result }
{
    if size != 512 {
        return Err(Refusal::WrongLength);
    }
    if !is_size(n) {
        return Err(Refusal::WrongSize);
    }
    if !is_count(records.len() / 16) || records.len() % 16 != 0 {
        return Err(Refusal::WrongCount);
    }
    Ok(())
}

// What the actions of a block give when they are all taken: a block with nothing but the actions in it, the sum of their bytes, and the sums for tracing.
#[derive(Clone, Copy)]
struct Summed {
    block: [u8; 512],
    sum: u32,
    sums: [u32; 31],
}

// Takes so many action records in order, up to the first refusal: each is looked at by 2 to 6 (13 and 15 after 5), stored from byte 14 on, and summed.
fn take_actions(n: u8, records: &[u8], count: usize) -> Result<Summed, Refusal>
    requires { (count ≤ 31) × (length records.now ≡ 16 * count) }
    ensures refusal_value { err_number result ≡ first_refusal n (actions_of count records.now) }
    ensures takes { IfOk result (Takes records.now count) }
{
    let mut block = [0u8; 512];
    let mut sums = [0u32; 31];
    let mut sum: u32 = 0;
    for k in 0..count {
        let from = 16 * k;
        let record = &records[from..from + 16];
        let action = read_action(record);
        decode(n, action)?;
        let at = 14 + from;
        block[at..at + 16].copy_from_slice(record);
        sum += weighed(record, at as u32);
        sums[k] = sum % MODULUS;
    }
    Ok(Summed { block, sum, sums })
}

// Stores the head of a block in which nothing but its actions stands, whose sum is given.
// The head is summed last, and the check follows from the two sums.
fn store_head(block: &mut [u8], number: u32, n: u8, records: &[u8], sum: u32)
    requires block_len { length block.old ≡ 512 }
    requires block_value { block.old ≡ sets (zeros 512) 14 records.now }
    requires records_len_bound { length records.now ≤ 496 }
    requires sum_value { sum ≡ weigh 14 records.now }
    ensures { block.new ≡ block_with number n records.now }
{
    block[..4].copy_from_slice(&number.to_le_bytes());
    block[4] = (records.len() / 16) as u8;
    block[5] = n;
    let head = weighed(&block[..14], 0);
    let check = ((sum + head) % MODULUS) as u16;
    block[510..].copy_from_slice(&check.to_le_bytes());
}

// Stores a block of the action records whose bytes are given, and gives the sums of its actions; or refuses, and leaves the lent buffer as it was.
// 8, 1 and 11 are looked at before the first store, and each action before its own. All stores go into 512 bytes of the writer's own,
// which become the buffer's when nothing is left that could be refused.
fn store_block(out: &mut [u8], number: u32, n: u8, records: &[u8]) -> Result<[u32; 31], Refusal>
    ensures refusal_value { err_number result ≡ write_number (length out.old) n records.now }
    ensures out_after { out.new ≡ written (err_number result) out.old (block_with number n records.now) }
    ensures sums_value { IfOk result (λ sums. sums ≡ sums_of (block_with number n records.now)) }
{
    look_at_call(out.len(), n, records)?;
    let taken = take_actions(n, records, records.len() / 16)?;
    let mut block = taken.block;
    store_head(&mut block, number, n, records, taken.sum);
    out.copy_from_slice(&block);
    Ok(taken.sums)
}

// What a write gives beside the block: its refusal, if it is refused, and the sums of the block's actions.
#[derive(Clone, Copy)]
pub struct Traced {
    pub refusal: Option<Refusal>,
    pub sums: [u32; 31],
}

// Writes a block of the action records whose bytes are given; or refuses, and leaves the lent buffer as it was. The sums of a refused write are 0.
pub fn write_block(out: &mut [u8], number: u32, n: u8, records: &[u8]) -> Traced
    ensures refusal_value { refusal_number result.refusal ≡ write_number (length out.old) n records.now }
    ensures out_after { out.new ≡ written (refusal_number result.refusal) out.old (block_with number n records.now) }
    ensures sums_value { result.sums ≡ sums_given result.refusal (block_with number n records.now) }
{
    match store_block(out, number, n, records) {
        Ok(sums) => Traced {
            refusal: None,
            sums,
        },
        Err(refusal) => Traced {
            refusal: Some(refusal),
            sums: [0u32; 31],
        },
    }
}
