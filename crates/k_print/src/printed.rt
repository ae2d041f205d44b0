//! A journal, ready to be printed.
ghost use Rattle.std.specs.Prelude.{◌≡◌, IfErr, IfOk};
ghost use Rattle.k_io.specs.Writing.{Writes};
ghost use Rattle.k_history.specs.Verdicts.{IsAccepted};
ghost use Rattle.k_trace.specs.Rules.{IsTrace};
ghost use Rattle.k_trace.specs.Spelling.{text};
ghost use Rattle.k_print.specs.Printed.{AreTexts, IsJournal, IsNotPrinted, journal_of, named_done, report_of};

use crate::errors::PrintError;
use crate::stepping::shown;
use crate::text_sink::TextSink;
use crate::texts::{Texts, are_few};
use crate::tracing::trace_text;
use k_io::{NoMemory, Sink, WriteFailed};
use k_report::report;
use k_solo::PlainEnd;
use k_trace::Names;
use k_types::{Event, Setup};
use std::alloc::Global;
use std::marker::Model;

/// A journal, ready to be printed: the trace that has exactly its operations, and its report.
///
/// Contracts see what is declared, its names and the events.
#[derive(Drop)]
pub struct Printed<'a> {
    setup: &'a Setup,
    names: &'a Names,
    end: PlainEnd,
}

impl<'a> Model for Printed<'a> {
    ghost use Rattle.k_print.specs.Printed.{IsShown, Journal, journal_of};

    ghost Value = { Journal };

    ghost view = { λ p. journal_of p.names.now p.setup.now p.end.events };

    ghost invariant = { λ p. IsShown (journal_of p.names.now p.setup.now p.end.events) p.end };
}

impl<'a> Printed<'a> {
    /// The journal of these events, which are a legal history of what is declared. The machine on one thread is stepped along them, which
    /// takes memory for its state, and time as its steps do.
    ///
    /// # Errors
    ///
    /// `Unspelled` and `TooMany` where no trace can have the operations, `Open` where a collection is open, `Over` where every process has
    /// ended, and `NoMemory`. Each comes only where it is so.
    pub fn of(
        alloc: Global,
        setup: &'a Setup,
        names: &'a Names,
        events: Vec<Event>,
    ) -> Result<Printed<'a>, PrintError>
        requires { IsJournal (journal_of names.now setup.now events.items) }
        ensures of { IfOk result (λ p. p ≡ journal_of names.now setup.now events.items) }
        ensures why { IfErr result (λ why. IsNotPrinted (journal_of names.now setup.now events.items) why) }
    {
        let end = shown(alloc, setup, events)?;
        Ok(Printed { setup, names, end })
    }

    /// The text of the trace, which is read as that trace where it has at most 16,777,216 bytes. It costs time and memory in proportion to
    /// the text.
    ///
    /// # Errors
    ///
    /// `NoMemory` where the text finds no room.
    pub fn trace_text(&self, alloc: Global) -> Result<Vec<u8>, NoMemory>
        ensures text { IfOk result (λ v. v.items ≡ text (named_done self.now)) }
        ensures is_trace { IsTrace (named_done self.now) }
    {
        trace_text(alloc, self.setup, self.names, &self.end)
    }

    /// Writes the report of the journal, which is accepted for the trace, as `k_report::report` writes one. It takes no memory.
    ///
    /// # Errors
    ///
    /// `WriteFailed` where a write failed; a front of the report was taken then.
    pub fn write_report<K: Sink>(&self, out: &mut K) -> Result<(), WriteFailed>
        ensures written { Writes (K.Holds out.old) (K.Holds out.new) (K.faults out.old) (K.faults out.new) result (report_of self.now) }
        ensures accepted { IsAccepted (named_done self.now) (report_of self.now) }
    {
        report(out, self.names, &self.end)
    }

    /// The text of the report, as [`Printed::write_report`] writes it. It costs time and memory in proportion to the text.
    ///
    /// # Errors
    ///
    /// `NoMemory` where the text finds no room.
    pub fn report_text(&self, alloc: Global) -> Result<Vec<u8>, NoMemory>
        ensures text { IfOk result (λ v. v.items ≡ report_of self.now) }
        ensures accepted { IfOk result (λ v. IsAccepted (named_done self.now) v.items) }
    {
        let mut out = TextSink::make(alloc);
        match self.write_report(&mut out) {
            Ok(()) => Ok(out.into_bytes()),
            Err(WriteFailed) => Err(out.into_refused()),
        }
    }

    /// Both texts, which a check reads and accepts. It costs time and memory in proportion to them.
    ///
    /// # Errors
    ///
    /// `TooLong` where a check would not read them, and `NoMemory`.
    pub fn texts(&self, alloc: Global) -> Result<Texts, PrintError>
        ensures texts { IfOk result (λ t. AreTexts self.now t) }
        ensures why { IfErr result (λ why. IsNotPrinted self.now why) }
    {
        let trace = self.trace_text(alloc)?;
        let report = self.report_text(alloc)?;
        if !are_few(trace.len(), report.len()) {
            return Err(PrintError::TooLong);
        }
        Ok(Texts { trace, report })
    }
}
