// The labels of a CASE, which share no value with each other where none breaks a rule.
ghost use Rattle.std.specs.Prelude.{◌≡◌, List, [], ◌∷◌, ◌++◌, length, take, OnOk};
ghost use Rattle.alma_rules.specs.StmtRules as rules;
ghost use Rattle.alma_check_rules.specs.declared.part.Span.{Span as PlainSpan};
ghost use Rattle.alma_check_rules.specs.Views.{span_view, spans_view};
ghost use Rattle.alma_check_rules.specs.Reach.{Rises};
ghost use Rattle.alma_check_rules.specs.Labels.{CoversAll, IsIndexed, SharesNone};

use crate::part::Span;
use crate::reach::{is_reached, note_end};
use alma_base::Range;
use std::alloc::{AllocError, Global};
use std::collections::BTreeMap;
use std::marker::Model;

/// The labels of a CASE that came so far, which are looked through in the time of the logarithm of
/// their number.
#[derive(Drop)]
pub struct Labels {
    spans: Vec<Span>,
    // How many stand in the arms that are settled.
    settled: usize,
    // How far those of the settled arms reach, and those behind them.
    before: BTreeMap<(u32, i64), i64>,
    arm: BTreeMap<(u32, i64), i64>,
}

impl Model for Labels {
    ghost Value = { List PlainSpan };

    ghost view = { λ l. l.spans.items };

    ghost invariant = { λ l. IsIndexed l.spans.items l.settled l.before l.arm };
}

impl Labels {
    /// No labels.
    pub fn new(alloc: Global) -> Labels
        ensures { result ≡ [] }
    {
        Labels {
            spans: Vec::new(alloc),
            settled: 0,
            before: BTreeMap::new(alloc),
            arm: BTreeMap::new(alloc),
        }
    }

    /// How many there are.
    pub fn len(&self) -> usize
        ensures { result ≡ length self.now }
    {
        self.spans.len()
    }

    /// Whether a value of the span is one of theirs.
    pub fn shares(&self, span: Span) -> bool
        ensures { result ≡ rules.shares_value (span_view span) (spans_view self.now) }
    {
        if !may_share(&self.before, span) && !may_share(&self.arm, span) {
            return false;
        }
        shares_value(span, &self.spans)
    }

    /// Notes one more label of the arm.
    pub fn note(&mut self, span: Span) -> Result<(), AllocError>
        ensures noted { OnOk result (self.new ≡ self.old ++ span ∷ []) }
    {
        note_end(&mut self.arm, span.base, span.range.low, span.range.high)?;
        self.spans.push(span)?;
        Ok(())
    }

    /// Ends the arm, whose labels stay.
    pub fn settle(&mut self)
        ensures { self.new ≡ self.old }
    {
        let noted = note_spans(&mut self.before, &self.spans, self.settled);
        if noted.is_ok() {
            self.settled = self.spans.len();
            self.arm.clear();
        }
    }

    /// Drops the labels behind the first `count`.
    pub fn forget(&mut self, count: usize)
        ensures { self.new ≡ take count self.old }
    {
        self.spans.truncate(count);
        if count <= self.settled {
            self.settled = self.spans.len();
            self.arm.clear();
        }
    }
}

// Whether a span that is covered may share a value with this one: where it is false, none does.
fn may_share(ends: &BTreeMap<(u32, i64), i64>, span: Span) -> bool
    requires { Rises ends.now }
    ensures { SharesNone ends.now (span_view span) result }
{
    is_reached(ends, span.base, span.range.high, span.range.low)
}

// Covers the spans from this one on too.
fn note_spans(
    ends: &mut BTreeMap<(u32, i64), i64>,
    spans: &[Span],
    from: usize,
) -> Result<(), AllocError>
    requires rises { Rises ends.old }
    requires covers { CoversAll ends.old (take from spans.now) }
    ensures rises { Rises ends.new }
    ensures stay { CoversAll ends.new (take from spans.now) }
    ensures covers { OnOk result (CoversAll ends.new spans.now) }
{
    for i in from..spans.len() {
        let span = spans[i];
        note_end(ends, span.base, span.range.low, span.range.high)?;
    }
    Ok(())
}

// Whether two ranges have a value in common.
fn share_value(first: Range, second: Range) -> bool
    ensures { result ≡ rules.share_value first second }
{
    first.low <= second.high && second.low <= first.high
}

// Whether a value of the span is one of those of the labels before it.
fn shares_value(span: Span, earlier: &[Span]) -> bool
    ensures { result ≡ rules.shares_value (span_view span) (spans_view earlier.now) }
{
    for other in earlier {
        if span.base == other.base && share_value(span.range, other.range) {
            return true;
        }
    }
    false
}
