//! Counts of the bases of a few reads by their positions, in 8 or 16 bits each, by vectors (SIMD).

ghost use Rattle.std.specs.Prelude.{◌≡◌, ◌+◌, ◌-◌, ◌≤◌, ◌<◌, ℕ, true, length, drop, map, IfOk};
ghost use Rattle.std.specs.List.{list_all};
ghost use Rattle.fq_text.specs.Scores.{is_scored};
ghost use Rattle.fq_text.specs.declared.encoding.Encoding.TheVariants.{Solexa};
ghost use Rattle.fq_report_reads.specs.Counting.{last_position, is_lane, lane_score, most_reads, few_rows};
ghost use Rattle.fq_report_reads.specs.Columns.{columns_from, columns_plus, first_rows, lanes_at, AreFew};

use crate::columns::Columns;
use crate::narrow_rows::{add_bytes, add_words, clear};
use crate::table::Table;
use crate::vectors::{WIDTH, all_of, last_of, less, ones_from, ones_of};
use fq_text::{Encoding, OutOfMemory};
use std::alloc::Global;
use std::marker::Model;
use std::simd::prelude::*;

// Counts of the bases of at most 254 reads, at the positions up to 10,000.
#[derive(Drop)]
pub(crate) struct NarrowColumns {
    bases: Vec<u8>,
    score_sum: Vec<u16>,
    q30_bases: Vec<u8>,
    a: Vec<u8>,
    c: Vec<u8>,
    g: Vec<u8>,
    t: Vec<u8>,
    n: Vec<u8>,
}

impl Model for NarrowColumns {
    ghost use Rattle.fq_report_reads.specs.declared.columns.Columns.{Columns};

    ghost Value = { Columns };

    ghost view = { λ f. record {
      bases = f.bases.items;
      score_sum = f.score_sum.items;
      q30_bases = f.q30_bases.items;
      a = f.a.items;
      c = f.c.items;
      g = f.g.items;
      t = f.t.items;
      n = f.n.items;
    } };
}

impl NarrowColumns {
    // No bases, and so many rows in each column.
    #[tactic(auto, using(std::proofs::lemmas::Grind::common_steps, crate::proofs::FewLemmas::row_none))]
    pub(crate) fn new(alloc: Global, rows: usize) -> Result<NarrowColumns, OutOfMemory>
        ensures { IfOk result (λ made. AreFew rows 0 0 made) }
    {
        Ok(NarrowColumns {
            bases: vec![in alloc; 0; rows]?,
            score_sum: vec![in alloc; 0; rows]?,
            q30_bases: vec![in alloc; 0; rows]?,
            a: vec![in alloc; 0; rows]?,
            c: vec![in alloc; 0; rows]?,
            g: vec![in alloc; 0; rows]?,
            t: vec![in alloc; 0; rows]?,
            n: vec![in alloc; 0; rows]?,
        })
    }

    // Counts bases. The first is at index `at` of its read.
    pub(crate) fn count(&mut self, encoding: Encoding, seq: &[u8], qual: &[u8], at: usize)
        requires near { at + length qual.now ≤ last_position }
        requires scored { list_all (is_scored encoding) qual.now ≡ true }
        requires same { length qual.now ≡ length seq.now }
        requires few { AreFew (at + length qual.now + 32) few_rows (most_reads - 1) self.old }
        ensures { self.new ≡ columns_plus self.old (columns_from at encoding seq.now qual.now) }
    {
        let mut from = 0;
        while WIDTH <= seq.len() - from {
            let bases = u8x32::from_slice(&seq[from..]);
            let bytes = u8x32::from_slice(&qual[from..]);
            self.add_vector(encoding, bases, bytes, at + from);
            from += WIDTH;
        }
        if from < seq.len() {
            self.count_rest(encoding, seq, qual, at, from);
        }
    }

    // Counts the bases from `from` on, which are fewer than a vector has.
    fn count_rest(&mut self, encoding: Encoding, seq: &[u8], qual: &[u8], at: usize, from: usize)
        requires near { at + length qual.now ≤ last_position }
        requires scored { list_all (is_scored encoding) qual.now ≡ true }
        requires same { length qual.now ≡ length seq.now }
        requires some { from ≤ length seq.now }
        requires less { length seq.now < from + 32 }
        requires few { AreFew (at + length qual.now + 32) few_rows most_reads self.old }
        ensures { self.new ≡ columns_plus self.old
            (columns_from (at + from) encoding (drop from seq.now) (drop from qual.now)) }
    {
        if WIDTH <= seq.len() {
            let start = seq.len() - WIDTH;
            let count = seq.len() - from;
            let bases = last_of(&seq[start..], count);
            let bytes = last_of(&qual[start..], count);
            self.add_vector(encoding, bases, bytes, at + start);
        } else {
            let bases = all_of(&seq[from..]);
            let bytes = all_of(&qual[from..]);
            self.add_vector(encoding, bases, bytes, at + from);
        }
    }

    // Counts the bases in a vector. A quality byte 0 means that there is no base.
    #[inline(always)]
    fn add_vector(&mut self, encoding: Encoding, bases: u8x32, bytes: u8x32, at: usize)
        requires lanes { list_all (is_lane encoding) bytes ≡ true }
        requires few { AreFew (at + 32) few_rows most_reads self.old }
        ensures { self.new ≡ columns_plus self.old (lanes_at at encoding bases bytes) }
    {
        let scores = scores_in(encoding, bytes);
        add_bytes(&mut self.bases, at, ones_from(bytes, 1));
        add_words(&mut self.score_sum, at, scores);
        add_bytes(&mut self.q30_bases, at, ones_from(scores, 30));
        add_bytes(&mut self.a, at, ones_of(bases, b'a'));
        add_bytes(&mut self.c, at, ones_of(bases, b'c'));
        add_bytes(&mut self.g, at, ones_of(bases, b'g'));
        add_bytes(&mut self.t, at, ones_of(bases, b't'));
        add_bytes(&mut self.n, at, ones_of(bases, b'n'));
    }

    // Adds the first rows to columns.
    pub(crate) fn add_to(&self, columns: &mut Columns, count: usize)
        requires few { AreFew count few_rows most_reads self.now }
        requires near { count ≤ last_position }
        ensures { columns.new ≡ columns_plus columns.old (first_rows count self.now) }
    {
        columns.bases.add_table(Table::Bytes(&self.bases[..count]));
        columns
            .score_sum
            .add_table(Table::Words(&self.score_sum[..count]));
        columns
            .q30_bases
            .add_table(Table::Bytes(&self.q30_bases[..count]));
        columns.a.add_table(Table::Bytes(&self.a[..count]));
        columns.c.add_table(Table::Bytes(&self.c[..count]));
        columns.g.add_table(Table::Bytes(&self.g[..count]));
        columns.t.add_table(Table::Bytes(&self.t[..count]));
        columns.n.add_table(Table::Bytes(&self.n[..count]));
    }

    // Sets all rows to 0. Those from `count` on are 0 already.
    #[tactic(auto, using(std::proofs::lemmas::Grind::common_steps, crate::proofs::FewLemmas::row_cleared))]
    pub(crate) fn clear(&mut self, count: usize)
        requires few { AreFew count count most_reads self.old }
        ensures { (rows : ℕ) → AreFew rows count most_reads self.old → AreFew rows 0 0 self.new }
    {
        clear(&mut self.bases, 0, count);
        clear(&mut self.score_sum, 0, count);
        clear(&mut self.q30_bases, 0, count);
        clear(&mut self.a, 0, count);
        clear(&mut self.c, 0, count);
        clear(&mut self.g, 0, count);
        clear(&mut self.t, 0, count);
        clear(&mut self.n, 0, count);
    }
}

// The scores of quality bytes. A byte 0 means that there is no base; its score is 0.
#[inline(always)]
fn scores_in(encoding: Encoding, bytes: u8x32) -> u8x32
    requires { list_all (is_lane encoding) bytes ≡ true }
    ensures { result ≡ map (lane_score encoding) bytes }
{
    match encoding.offset() {
        Some(offset) => less(bytes, offset),
        None => solexa_scores(bytes),
    }
}

// The scores of quality bytes in Solexa's encoding, byte by byte.
#[tactic(auto, using(std::proofs::lemmas::Grind::common_steps, crate::proofs::LaneLemmas::converted_next))]
#[inline(never)]
fn solexa_scores(bytes: u8x32) -> u8x32
    requires { list_all (is_lane Solexa) bytes ≡ true }
    ensures { result ≡ map (lane_score Solexa) bytes }
{
    let mut scores = bytes.to_array();
    for i in 0..WIDTH {
        scores[i] = solexa_score(scores[i]);
    }
    u8x32::from_array(scores)
}

// The score of one byte in Solexa's encoding.
fn solexa_score(byte: u8) -> u8
    requires { is_lane Solexa byte ≡ true }
    ensures { result ≡ lane_score Solexa byte }
{
    if byte == 0 {
        0
    } else {
        Encoding::Solexa.phred(byte)
    }
}
