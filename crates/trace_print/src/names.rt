// Names of a platform's components, as the report has them.
ghost use Rattle.std.specs.Prelude.{◌≡◌, ◌++◌, codes, slice_get, IfOk, IfSome};
ghost use Rattle.report_model.specs.Report.{initiator_name, memory_name, name_of_router, object_word, seq_word, target_name, txn_word};
ghost use Rattle.line_text.specs.FrontText.{front_text, IsFrontReady};
ghost use Rattle.tlm_model.specs.declared.platform.Platform.{Platform};
ghost use Rattle.trace_print.specs.Hops.{ends_at, front_of, hop_word_of, object_word_by, up_name, AreEach, AreInitiatorWords, IsHopWord, IsMemoryWord};
ghost use Rattle.trace_print.specs.Putting.{Puts, page};

use crate::line::{Line, put, put_piece};
use crate::words::put_text;
use line_text::{Front, LinePiece, Numbering, ShortWord};
use outside::Sink;
use route_plan::{HopEnds, Plan, Up};
use std::alloc::Global;
use std::marker::Model;
use tlm_model::{Platform, Target};
use tlm_types::{Head, Memory, ObjectNo, TxnId};

// The name of an initiator, and an empty one where there is none.
fn initiator_name(platform: &Platform, number: u32) -> &str
    ensures { result.now ≡ initiator_name platform.now number }
{
    match platform.initiators.as_slice().get(number as usize) {
        Some(row) => row.name.as_text(),
        None => "",
    }
}

fn router_name(platform: &Platform, number: u32) -> &str
    ensures { result.now ≡ name_of_router (slice_get platform.now.routers number) }
{
    match platform.routers.as_slice().get(number as usize) {
        Some(row) => row.name.as_text(),
        None => "",
    }
}

// The name of a memory, and an empty one where there is none.
fn memory_name(platform: &Platform, number: u32) -> &str
    ensures { result.now ≡ memory_name platform.now number }
{
    match platform.memories.as_slice().get(number as usize) {
        Some(row) => row.name.as_text(),
        None => "",
    }
}

fn target_name(platform: &Platform, target: Target) -> &str
    ensures { result.now ≡ target_name platform.now target }
{
    match target {
        Target::Router(number) => router_name(platform, number),
        Target::Memory(number) => memory_name(platform, number),
    }
}

// The name of what stands before a hop.
fn up_name(platform: &Platform, up: Up) -> &str
    ensures { result.now ≡ up_name platform.now up }
{
    match up {
        Up::Initiator(number) => initiator_name(platform, number),
        Up::Router { router, .. } => router_name(platform, router),
    }
}

fn put_ends<K: Sink>(out: &mut K, line: &mut Line, platform: &Platform, ends: HopEnds)
    ensures { Puts (page (K.taken out.old) (K.faults out.old) line.old)
        (page (K.taken out.new) (K.faults out.new) line.new) (hop_word_of platform.now ends) }
{
    put_text(out, line, up_name(platform, ends.up));
    put(out, line, b">");
    put_text(out, line, target_name(platform, ends.down));
}

/// Puts the name of a transaction, that of its initiator and its number, and a space.
pub fn put_seq<K: Sink>(out: &mut K, line: &mut Line, name: &str, seq: u64)
    ensures { Puts (page (K.taken out.old) (K.faults out.old) line.old)
        (page (K.taken out.new) (K.faults out.new) line.new) (seq_word name.now seq ++ codes " ") }
{
    put_text(out, line, name);
    put_piece(out, line, LinePiece::Seq(seq));
}

/// Puts the name of a transaction of a platform, and a space.
pub fn put_txn<K: Sink>(out: &mut K, line: &mut Line, platform: &Platform, txn: TxnId)
    ensures { Puts (page (K.taken out.old) (K.faults out.old) line.old)
        (page (K.taken out.new) (K.faults out.new) line.new) (txn_word platform.now txn ++ codes " ") }
{
    put_seq(out, line, initiator_name(platform, txn.initiator), txn.seq);
}

/// The two ends of a hop. `None` for another object, and for a hop that isn't there.
pub fn ends_at(plan: &Plan, object: ObjectNo) -> Option<HopEnds>
    ensures { result ≡ ends_at plan.now.platform object }
{
    match object {
        ObjectNo::Hop(number) => plan.hop_ends(number),
        _ => None,
    }
}

/// Puts the name of an object: that of a memory, the two ends of a hop, which are given, or the pool of
/// an initiator.
pub fn put_object<K: Sink>(
    out: &mut K,
    line: &mut Line,
    platform: &Platform,
    object: ObjectNo,
    ends: Option<HopEnds>,
)
    ensures { Puts (page (K.taken out.old) (K.faults out.old) line.old)
        (page (K.taken out.new) (K.faults out.new) line.new) (object_word_by platform.now object ends) }
{
    match object {
        ObjectNo::Memory(number) => put_text(out, line, memory_name(platform, number)),
        ObjectNo::Hop(_) => {
            if let Some(ends) = ends {
                put_ends(out, line, platform, ends);
            }
        }
        ObjectNo::Pool(number) => {
            put_text(out, line, initiator_name(platform, number));
            put(out, line, b".pool");
        }
    }
}

// The name of a hop, by those of its ends. Its only error is want of memory.
fn hop_name(alloc: Global, platform: &Platform, ends: HopEnds) -> Result<Vec<u8>, Memory>
    ensures { IfOk result (λ v. v.items ≡ hop_word_of platform.now ends) }
{
    let mut name = Vec::new(alloc);
    name.extend_from_slice(up_name(platform, ends.up).as_bytes())?;
    name.extend_from_slice(b">")?;
    name.extend_from_slice(target_name(platform, ends.down).as_bytes())?;
    Ok(name)
}

// Words of an initiator that are kept: its name and a dot with the numbers of its transactions, and the name of its pool.
#[derive(Drop)]
pub struct InitiatorWords {
    txns: Numbering,
    pool: ShortWord,
}

// The name of an initiator, and this end behind it. Its only error is want of memory.
fn name_with(alloc: Global, platform: &Platform, number: u32, end: &[u8]) -> Result<Vec<u8>, Memory>
    ensures { IfOk result (λ v. v.items ≡ initiator_name platform.now number ++ end.now) }
{
    let mut name = Vec::new(alloc);
    name.extend_from_slice(initiator_name(platform, number).as_bytes())?;
    name.extend_from_slice(end)?;
    Ok(name)
}

// The words of an initiator, where its name is short. Its only error is want of memory.
fn initiator_words(
    alloc: Global,
    platform: &Platform,
    initiator: u32,
) -> Result<Option<InitiatorWords>, Memory>
    ensures { IfOk result (λ words. IfSome words (AreInitiatorWords platform.now initiator)) }
{
    let txns = name_with(alloc, platform, initiator, b".")?;
    let pool = name_with(alloc, platform, initiator, b".pool")?;
    let (Some(txns), Some(pool)) = (
        Numbering::of(txns.as_slice()),
        ShortWord::of(pool.as_slice()),
    ) else {
        return Ok(None);
    };
    Ok(Some(InitiatorWords { txns, pool }))
}

// The words of the initiators, up to the first whose name is long. Its only error is want of memory.
fn words_of_initiators(alloc: Global, platform: &Platform) -> Result<Vec<InitiatorWords>, Memory>
    ensures { IfOk result (λ rows. AreEach (AreInitiatorWords platform.now) rows.items) }
{
    let mut rows = Vec::new(alloc);
    for initiator in 0..u32::MAX {
        if initiator as usize >= platform.initiators.as_slice().len() {
            break;
        }
        let Some(words) = initiator_words(alloc, platform, initiator)? else {
            break;
        };
        rows.push(words)?;
    }
    Ok(rows)
}

// Has the digits of a transaction's number at hand.
#[inline(always)]
fn turn_txns(rows: &mut Vec<InitiatorWords>, txn: TxnId)
    ensures { (p : Platform) → AreEach (AreInitiatorWords p) rows.old.items → AreEach (AreInitiatorWords p) rows.new.items }
{
    if let Some(words) = rows.get_mut(txn.initiator as usize) {
        words.txns.turn_to(txn.seq);
    }
}

// The names of the hops, up to the first that is long. Its only error is want of memory.
fn words_of_hops(alloc: Global, plan: &Plan) -> Result<Vec<ShortWord>, Memory>
    ensures { IfOk result (λ rows. AreEach (IsHopWord plan.now.platform) rows.items) }
{
    let mut rows = Vec::new(alloc);
    for hop in 0..u32::MAX {
        let Some(ends) = plan.hop_ends(hop) else {
            break;
        };
        let name = hop_name(alloc, plan.platform(), ends)?;
        let Some(word) = ShortWord::of(name.as_slice()) else {
            break;
        };
        rows.push(word)?;
    }
    Ok(rows)
}

// The names of the memories, up to the first that is long. Its only error is want of memory.
fn words_of_memories(alloc: Global, platform: &Platform) -> Result<Vec<ShortWord>, Memory>
    ensures { IfOk result (λ rows. AreEach (IsMemoryWord platform.now) rows.items) }
{
    let mut rows = Vec::new(alloc);
    for memory in 0..u32::MAX {
        if memory as usize >= platform.memories.as_slice().len() {
            break;
        }
        let name = memory_name(platform, memory).as_bytes();
        let Some(word) = ShortWord::of(name) else {
            break;
        };
        rows.push(word)?;
    }
    Ok(rows)
}

/// The names of a plan's components, whose plan contracts see. They are made once, and not for each entry, and with
/// them the digits of numbers that mostly go up by one: those of positions, and those of transactions.
#[derive(Drop)]
pub struct Names<'a> {
    plan: &'a Plan,
    positions: Numbering,
    initiators: Vec<InitiatorWords>,
    hops: Vec<ShortWord>,
    memories: Vec<ShortWord>,
}

impl<'a> Model for Names<'a> {
    ghost use Rattle.std.specs.Prelude.{◌≡◌, []};
    ghost use Rattle.tlm_model.specs.Plan as model;
    ghost use Rattle.trace_print.specs.Hops.{AreEach, AreInitiatorWords, IsHopWord, IsMemoryWord};

    ghost Value = { model.Plan };

    ghost view = { λ n. n.plan.now };

    ghost invariant = { λ n. (n.positions.word ≡ []) × AreEach (AreInitiatorWords n.plan.now.platform) n.initiators.items
        × AreEach (IsHopWord n.plan.now.platform) n.hops.items × AreEach (IsMemoryWord n.plan.now.platform) n.memories.items };
}

impl<'a> Names<'a> {
    /// The names of a plan. Its only error is want of memory.
    pub fn of_plan(alloc: Global, plan: &'a Plan) -> Result<Names<'a>, Memory>
        ensures { IfOk result (λ n. n ≡ plan.now) }
    {
        let platform = plan.platform();
        let initiators = words_of_initiators(alloc, platform)?;
        let hops = words_of_hops(alloc, plan)?;
        let memories = words_of_memories(alloc, platform)?;
        Ok(Names {
            plan,
            positions: Numbering::alone(),
            initiators,
            hops,
            memories,
        })
    }

    /// The plan.
    pub fn plan(&self) -> &'a Plan
        ensures { result.now ≡ self.now }
    {
        self.plan
    }

    /// Its platform.
    pub fn platform(&self) -> &'a Platform
        ensures { result.now ≡ self.now.platform }
    {
        self.plan.platform()
    }

    /// Has the digits of an entry's numbers at hand.
    // Nothing rests on it: where they aren't, the line has no front.
    #[inline(always)]
    pub fn turn_to(&mut self, head: Head)
        ensures { self.new ≡ self.old }
    {
        self.positions.turn_to(head.position);
        turn_txns(&mut self.initiators, head.txn);
    }

    /// What the line of an entry begins with, where its digits are at hand and its initiator's name is short.
    #[inline(always)]
    pub fn front(&self, head: Head) -> Option<Front<'_>>
        ensures ready { IfSome result IsFrontReady }
        ensures head { IfSome result (λ front. front.head ≡ head) }
        ensures text { IfSome result (λ front. front_text front ≡ front_of self.now.platform front.head) }
    {
        let txns = &self.initiators.get(head.txn.initiator as usize)?.txns;
        if self.positions.is_ready(head.position) && txns.is_ready(head.txn.seq) {
            Some(Front {
                head,
                positions: &self.positions,
                txns,
            })
        } else {
            None
        }
    }

    /// The name of an object, where it is short.
    #[inline(always)]
    pub fn object(&self, object: ObjectNo) -> Option<&ShortWord>
        ensures { IfSome result (λ word. word.now ≡ object_word self.now.platform object) }
    {
        match object {
            ObjectNo::Memory(number) => self.memories.get(number as usize),
            ObjectNo::Hop(number) => self.hops.get(number as usize),
            ObjectNo::Pool(number) => Some(&self.initiators.get(number as usize)?.pool),
        }
    }
}
