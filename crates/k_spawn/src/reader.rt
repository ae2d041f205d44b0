//! What the lines so far say, and the step to the next line.
ghost use Rattle.std.specs.Prelude.{ℕ, ◌≡◌, ◌<◌, ◌+◌, List, Some, length, map, true, Err, IfSome, IfOk, IfErr, IsFalse, OnOk};
ghost use Rattle.std.specs.List.{AllByRecursion};
ghost use Rattle.k_trace.specs.Names.{declares};
ghost use Rattle.k_trace.specs.Words.{word_at, words_of};
ghost use Rattle.k_trace.specs.Judgement.{has_process};
ghost use Rattle.k_spawn.specs.declared.errors.ScriptLineError.TheVariants.{Bad};
ghost use Rattle.k_spawn.specs.declared.reasons.ScriptReason.TheVariants.{OfTrace};
ghost use Rattle.k_spawn.specs.Courses.{IsDeedOf, reaped_by};
ghost use Rattle.k_spawn.specs.Judgement.{start, is_child_word, version_line, header_line, child_line, leads, with_child, spawn_form, reap_form, deed_of, deed_line, operation_line, later_line, line_of_procs, line_in, judged_line};
ghost use Rattle.k_spawn.specs.Outcome.{IsJudged, IsReader, IsAlsoRefused, IsHeaderPlace, IsOfHeader, place_now, process_of_name, so_far};
ghost use Rattle.k_spawn.specs.Scripts.{process_names};

use crate::course::{Course, weight_of};
use crate::errors::ScriptLineError;
use crate::reasons::ScriptReason;
use crate::script::{Deed, Script};
use k_reader::{Reader, read_op};
use k_trace::{LineError, Place, Reason};
use k_types::{
    MAXIMUM_BELOW, MOST_LIMITS, MOST_LINE_BYTES, MOST_OPERATIONS, MOST_PROCESSES, NoMemory, Pid,
};
use k_words::{
    NameList, after_word, are_words, is, is_keyword, is_name, is_printable, number, word,
    word_count,
};
use std::alloc::Global;
use std::marker::Model;

/// What the lines so far say. The header is read by the reader of traces.
pub struct ScriptReader {
    begun: bool,
    header: Reader,
    child_names: NameList,
    course: Course,
}

impl Drop for ScriptReader {
    fn drop(self) {
        let ScriptReader {
            begun: _,
            header: _,
            child_names: _,
            course: _,
        } = self;
    }
}

impl Model for ScriptReader {
    ghost use Rattle.k_spawn.specs.Outcome.{ReaderState};

    ghost Value = { ReaderState };

    ghost view = { λ r. record { begun = r.begun; header = r.header; child_names = r.child_names; course = r.course } };
}

/// Bad by a reason of traces.
fn bad(reason: Reason) -> ScriptLineError
    ensures { result ≡ Bad (OfTrace reason) }
{
    ScriptLineError::Bad(ScriptReason::OfTrace(reason))
}

/// Whether the word is reserved in scripts beside those of traces.
fn is_child_word(word: &[u8]) -> bool
    ensures { result ≡ is_child_word word.now }
{
    is(word, b"child")
}

/// The answer to a header line, to which that reason applies too; the lower one counts.
fn also(reason: Reason, answer: Result<(), LineError>) -> ScriptLineError
    ensures { IsAlsoRefused reason answer result }
{
    match answer {
        Err(LineError::NoMemory(refused)) => ScriptLineError::NoMemory(refused),
        Err(LineError::Bad(other)) => {
            if other.number() < reason.number() {
                bad(other)
            } else {
                bad(reason)
            }
        }
        Ok(()) => bad(reason),
    }
}

impl ScriptReader {
    pub fn new(alloc: Global) -> ScriptReader
        ensures start { so_far result ≡ start }
        ensures ready { IsReader result }
    {
        ScriptReader {
            begun: false,
            header: Reader::past_version(alloc),
            child_names: NameList::new(alloc),
            course: Course::new(alloc),
        }
    }

    /// Where the next line stands.
    fn place(&self) -> Place
        ensures { result ≡ place_now self.now }
    {
        if !self.begun {
            Place::Version
        } else if self.course.has_lines() {
            Place::Operations
        } else {
            self.header.place()
        }
    }

    /// How many processes there are, children among them.
    fn process_count(&self) -> usize
        requires { IsReader self.now }
        ensures { result ≡ length (process_names (so_far self.now).said) }
    {
        self.course.process_count()
    }

    /// The number of the process of that name.
    fn process_named(&self, name: &[u8]) -> Option<Pid>
        requires { IsReader self.now }
        ensures number { result ≡ process_of_name (so_far self.now).said name.now }
        ensures known { IfSome result (λ pid. pid.0 < self.now.course.family.first + length self.now.course.family.parents) }
        ensures few { IfSome result (λ pid. pid.0 < 64) }
    {
        match self.header.names().proc_named(name) {
            Some(pid) => Some(pid),
            None => match self.child_names.number(name) {
                Some(place) => Some(self.course.child_at(place)),
                None => None,
            },
        }
    }

    #[tactic(auto, unfolding(crate::specs::Judgement::version_line, crate::specs::Reasons::demands))]
    fn version_line(&mut self, line: &[u8]) -> Result<(), ScriptLineError>
        requires ready { IsReader self.old }
        requires place { place_now self.old ≡ Place.Version }
        ensures judged { IsJudged result (so_far self.new) (version_line (so_far self.old).said (words_of line.now)) }
        ensures ready { OnOk result (IsReader self.new) }
    {
        if word_count(line) != 2 || !is(word(line, 0), b"spawn") || !is(word(line, 1), b"1") {
            return Err(bad(Reason::NoForm));
        }
        self.begun = true;
        Ok(())
    }

    /// A line that a trace may have before its operations.
    #[tactic(auto, unfolding(crate::specs::Judgement::header_line, crate::specs::Reasons::also))]
    fn header_line(&mut self, alloc: Global, line: &[u8]) -> Result<(), ScriptLineError>
        requires ready { IsReader self.old }
        requires place { IsHeaderPlace (place_now self.old) }
        requires line { IsOfHeader (so_far self.old).said (words_of line.now) }
        ensures judged { IsJudged result (so_far self.new) (header_line (place_now self.old) (so_far self.old).said (words_of line.now)) }
        ensures ready { OnOk result (IsReader self.new) }
    {
        let name = word(line, 1);
        let reserved = is_child_word(name);
        let taken = self.child_names.declares(name);
        let answer = self.header.line_in(alloc, line);
        if reserved {
            return Err(also(Reason::NoName, answer));
        }
        if taken {
            return Err(also(Reason::NameTaken, answer));
        }
        match answer {
            Ok(()) => {}
            Err(LineError::NoMemory(refused)) => return Err(ScriptLineError::NoMemory(refused)),
            Err(LineError::Bad(reason)) => return Err(bad(reason)),
        }
        if self.course.child_count() == 0 {
            self.course
                .set_first(self.header.names().proc_count() as u32);
        }
        Ok(())
    }

    /// The parent that the line of a child names, where nothing is wrong with the line.
    #[tactic(auto, unfolding(crate::specs::Judgement::child_line, crate::specs::Reasons::demands))]
    fn parent_in(&self, line: &[u8]) -> Result<Pid, Reason>
        requires ready { IsReader self.now }
        ensures good { IfOk result (λ parent. child_line (so_far self.now).said (words_of line.now) ≡ leads Place.Procs (with_child (so_far self.now).said (word_at (words_of line.now) 1) parent.0)) }
        ensures bad { IfErr result (λ reason. child_line (so_far self.now).said (words_of line.now) ≡ Err (OfTrace reason)) }
        ensures new { IfOk result (λ _. IsFalse (declares self.now.child_names (word_at (words_of line.now) 1))) }
        ensures few { IfOk result (λ _. self.now.course.family.first + length self.now.course.family.parents < 64) }
        ensures known { IfOk result (λ parent. parent.0 < self.now.course.family.first + length self.now.course.family.parents) }
    {
        if word_count(line) != 3 {
            return Err(Reason::NoForm);
        }
        let name = word(line, 1);
        if !is_name(name) || is_child_word(name) {
            return Err(Reason::NoName);
        }
        if self.process_named(name).is_some() || self.header.names().limit_named(name).is_some() {
            return Err(Reason::NameTaken);
        }
        let Some(parent) = self.process_named(word(line, 2)) else {
            return Err(Reason::Undeclared);
        };
        let limits = self.header.names().limit_count() + self.course.child_count();
        if self.process_count() >= MOST_PROCESSES || limits >= MOST_LIMITS {
            return Err(Reason::TooMany);
        }
        Ok(parent)
    }

    fn child_line(&mut self, alloc: Global, line: &[u8]) -> Result<(), ScriptLineError>
        requires ready { IsReader self.old }
        requires place { place_now self.old ≡ Place.Procs }
        ensures judged { IsJudged result (so_far self.new) (child_line (so_far self.old).said (words_of line.now)) }
        ensures ready { OnOk result (IsReader self.new) }
    {
        match self.parent_in(line) {
            Ok(parent) => {
                self.child_names.declare(alloc, word(line, 1))?;
                self.course.add_child(parent)?;
                Ok(())
            }
            Err(reason) => Err(bad(reason)),
        }
    }

    #[tactic(auto, unfolding(crate::specs::Judgement::spawn_form, k_trace::specs::Demands::demands))]
    fn spawn_form(&self, line: &[u8]) -> Result<Deed, Reason>
        requires { IsReader self.now }
        ensures deed { result ≡ spawn_form (so_far self.now).said (words_of line.now) }
        ensures known { IfOk result (λ deed. IsDeedOf self.now.course.family deed) }
    {
        if word_count(line) != 3 {
            return Err(Reason::NoForm);
        }
        let Some(max) = number(word(line, 2), MAXIMUM_BELOW as u128) else {
            return Err(Reason::NoNumber);
        };
        let Some(child) = self.process_named(word(line, 1)) else {
            return Err(Reason::Undeclared);
        };
        Ok(Deed::Spawns { child, max })
    }

    #[tactic(auto, unfolding(crate::specs::Judgement::reap_form, k_trace::specs::Demands::demands))]
    fn reap_form(&self, line: &[u8]) -> Result<Deed, Reason>
        requires { IsReader self.now }
        ensures deed { result ≡ reap_form (so_far self.now).said (words_of line.now) }
        ensures known { IfOk result (λ deed. IsDeedOf self.now.course.family deed) }
    {
        if word_count(line) != 2 {
            return Err(Reason::NoForm);
        }
        let Some(child) = self.process_named(word(line, 1)) else {
            return Err(Reason::Undeclared);
        };
        Ok(Deed::Reaps { child })
    }

    /// What the words after a process's name say that it does.
    #[tactic(auto, unfolding(crate::specs::Judgement::deed_of, k_trace::specs::Forms::op_in, k_trace::specs::Demands::demands))]
    fn deed_of(&self, line: &[u8]) -> Result<Deed, Reason>
        requires { IsReader self.now }
        ensures deed { result ≡ deed_of (so_far self.now).said (words_of line.now) }
        ensures known { IfOk result (λ deed. IsDeedOf self.now.course.family deed) }
    {
        let verb = word(line, 0);
        if is(verb, b"spawn") {
            return self.spawn_form(line);
        }
        if is(verb, b"reap") {
            return self.reap_form(line);
        }
        if is(verb, b"kill") || is(verb, b"resize") {
            return Err(Reason::NoForm);
        }
        match read_op(self.header.names(), line) {
            Ok(op) => Ok(Deed::Does(op)),
            Err(reason) => Err(reason),
        }
    }

    /// Adds the line of a deed of that process, where its time has come and there is room. The list is whom the deed reaps.
    #[tactic(auto, unfolding(crate::specs::Judgement::deed_line, crate::specs::Reasons::demands))]
    fn push_deed(&mut self, pid: Pid, deed: Deed, reaped: &[Pid]) -> Result<(), ScriptLineError>
        requires ready { IsReader self.old }
        requires begun { self.old.begun ≡ true }
        requires known { IsDeedOf self.old.course.family deed }
        requires process { pid.0 < 64 }
        requires list { map (λ it. it.0) reaped.now ≡ reaped_by self.old.course.family deed }
        requires few { AllByRecursion (λ p. p < 64) (map (λ it. it.0) reaped.now) }
        ensures judged { (name : List ℕ) → Some pid ≡ process_of_name (so_far self.old).said name → IsJudged result (so_far self.new) (deed_line (so_far self.old).said name deed) }
        ensures ready { OnOk result (IsReader self.new) }
    {
        if weight_of(deed, reaped) > MOST_OPERATIONS - self.course.operation_count() {
            return Err(bad(Reason::TooMany));
        }
        if self.course.has_left(pid) {
            return Err(bad(Reason::AfterExit));
        }
        if !self.course.is_of_parent(pid, deed) {
            return Err(ScriptLineError::Bad(ScriptReason::Stranger));
        }
        if !self.course.is_running(pid) || !self.course.is_due(deed) {
            return Err(ScriptLineError::Bad(ScriptReason::Untimely));
        }
        self.course.push(pid, deed, reaped)?;
        Ok(())
    }

    #[tactic(auto, unfolding(crate::specs::Judgement::deed_line, crate::specs::Reasons::demands))]
    fn deed_line(&mut self, alloc: Global, name: &[u8], deed: Deed) -> Result<(), ScriptLineError>
        requires ready { IsReader self.old }
        requires begun { self.old.begun ≡ true }
        requires known { IsDeedOf self.old.course.family deed }
        ensures judged { IsJudged result (so_far self.new) (deed_line (so_far self.old).said name.now deed) }
        ensures ready { OnOk result (IsReader self.new) }
    {
        let Some(pid) = self.process_named(name) else {
            return Err(bad(Reason::Undeclared));
        };
        let reaped = self.course.reaped_by(alloc, deed)?;
        self.push_deed(pid, deed, &reaped)
    }

    #[tactic(auto, unfolding(crate::specs::Judgement::operation_line))]
    fn operation_line(&mut self, alloc: Global, line: &[u8]) -> Result<(), ScriptLineError>
        requires ready { IsReader self.old }
        requires begun { self.old.begun ≡ true }
        ensures judged { IsJudged result (so_far self.new) (operation_line (so_far self.old).said (words_of line.now)) }
        ensures ready { OnOk result (IsReader self.new) }
    {
        match after_word(line) {
            None => Err(bad(Reason::NoForm)),
            Some(rest) => match self.deed_of(rest) {
                Ok(deed) => self.deed_line(alloc, word(line, 0), deed),
                Err(reason) => Err(bad(reason)),
            },
        }
    }

    #[tactic(auto, unfolding(crate::specs::Judgement::later_line))]
    fn later_line(&mut self, alloc: Global, line: &[u8]) -> Result<(), ScriptLineError>
        requires ready { IsReader self.old }
        requires place { IsHeaderPlace (place_now self.old) }
        ensures judged { IsJudged result (so_far self.new) (later_line (place_now self.old) (so_far self.old).said (words_of line.now)) }
        ensures ready { OnOk result (IsReader self.new) }
    {
        let first = word(line, 0);
        if is(first, b"shared") {
            return self.header_line(alloc, line);
        }
        if is_keyword(first) || is_child_word(first) {
            return Err(bad(Reason::NoForm));
        }
        self.operation_line(alloc, line)
    }

    #[tactic(auto, unfolding(crate::specs::Judgement::line_of_procs))]
    fn line_of_procs(&mut self, alloc: Global, line: &[u8]) -> Result<(), ScriptLineError>
        requires ready { IsReader self.old }
        requires place { place_now self.old ≡ Place.Procs }
        ensures judged { IsJudged result (so_far self.new) (line_of_procs (so_far self.old).said (words_of line.now)) }
        ensures ready { OnOk result (IsReader self.new) }
    {
        let first = word(line, 0);
        if is(first, b"proc") && self.course.child_count() == 0 {
            return self.header_line(alloc, line);
        }
        if is_child_word(first) {
            return self.child_line(alloc, line);
        }
        self.later_line(alloc, line)
    }

    #[tactic(auto, unfolding(crate::specs::Judgement::line_in))]
    fn line_in(&mut self, alloc: Global, line: &[u8]) -> Result<(), ScriptLineError>
        requires { IsReader self.old }
        ensures judged { IsJudged result (so_far self.new) (line_in (place_now self.old) (so_far self.old).said (words_of line.now)) }
        ensures ready { OnOk result (IsReader self.new) }
    {
        match self.place() {
            Place::Version => self.version_line(line),
            Place::Kernel | Place::Types | Place::Limits => self.header_line(alloc, line),
            Place::Procs => self.line_of_procs(alloc, line),
            Place::Shared => self.later_line(alloc, line),
            Place::Operations => self.operation_line(alloc, line),
        }
    }

    /// Takes the next line.
    #[tactic(auto, unfolding(crate::specs::Judgement::judged_line, crate::specs::Reasons::demands))]
    pub fn take(&mut self, alloc: Global, line: &[u8]) -> Result<(), ScriptLineError>
        requires { IsReader self.old }
        ensures judged { IsJudged result (so_far self.new) (judged_line (so_far self.old) line.now) }
        ensures ready { OnOk result (IsReader self.new) }
    {
        if line.len() > MOST_LINE_BYTES {
            return Err(bad(Reason::LongLine));
        }
        if !is_printable(line) {
            return Err(bad(Reason::Unprintable));
        }
        if !are_words(line) {
            return Err(bad(Reason::NoForm));
        }
        self.line_in(alloc, line)
    }

    /// Whether a limit and a process were read.
    pub fn has_process(&self) -> bool
        ensures { result ≡ has_process (place_now self.now) }
    {
        matches!(
            self.place(),
            Place::Procs | Place::Shared | Place::Operations
        )
    }

    /// The script that all lines say.
    pub fn finish(self, alloc: Global) -> Result<Script, NoMemory>
        requires { IsReader self }
        ensures { IfOk result (λ script. script ≡ (so_far self).said) }
    {
        let ScriptReader {
            begun: _,
            header,
            child_names,
            course,
        } = self;
        let header = header.finish(alloc)?;
        let (family, lines) = course.into_parts();
        Ok(Script::new(header, child_names, family, lines))
    }
}
