//! What the lines so far say, and the step to the next line.
ghost use Rattle.std.specs.Prelude.{◌≡◌, ◌<◌, ◌≤◌, IfOk, OnOk, OnErr, IsTrue, IsFalse, drop, length, map, [], ◌∷◌, ◌++◌, ◌+◌};
ghost use Rattle.k_limits.specs.k_types.Bounds.{most_limits};
ghost use Rattle.std.specs.List.{list_all};
ghost use Rattle.k_words.specs.Words.{words_of};
ghost use Rattle.k_trace.specs.Judgement.{start, past_version, version_line, kernel_line, is_field, field_of, type_line, root_line, limit_line, proc_line, shared_line, process_line, operation_line, later_line, line_of_types, line_of_limits, line_of_procs, line_in, judged_line, has_process};
ghost use Rattle.k_trace.specs.Grown.{with_limit};
ghost use Rattle.k_trace.specs.Outcome.{AreReserved, IsJudged, Finishes};
ghost use Rattle.k_words.specs.Names.{declares, is_name};

use crate::forms::read_op_in;
use crate::operations::Operations;
use crate::rooms::has_room;
use crate::version::{FIRST_VERSION, is_version, version_of};
use k_io::{NoMemory, push};
use k_limits::{
    Field, LimitId, LimitRow, MAXIMUM_BELOW, MOST_LIMITS, MOST_LINE_BYTES, MOST_OPERATIONS,
    MOST_PROCESSES, MOST_SHARED_HEAPS, MOST_TYPES, MOST_WORDS, Op, Setup, TypeTable,
};
use k_trace::{LineError, Names, Place, Reason, Trace};
use k_words::{
    after_word, are_words, is, is_keyword, is_name, is_printable, number, word, word_count,
};
use std::alloc::Global;
use std::marker::Model;

/// What the lines so far say.
#[derive(Drop)]
pub struct Reader {
    place: Place,
    version: u32,
    ceiling: u64,
    dir_fields: u32,
    types: Vec<Vec<Field>>,
    limits: Vec<LimitRow>,
    procs: Vec<LimitId>,
    names: Names,
    operations: Operations,
}

impl Model for Reader {
    ghost use Rattle.std.specs.Prelude.{map, length};
    ghost use Rattle.k_trace.specs.Judgement.{SoFar};
    ghost use Rattle.k_trace.specs.Outcome.{IsReader};

    ghost Value = { SoFar };

    ghost view = { λ r. record {
      place = r.place;
      said = record {
        names = r.names;
        trace = record {
          version = r.version;
          ceiling = r.ceiling;
          dir_fields = r.dir_fields;
          types = map (λ row. row.items) r.types.items;
          limits = r.limits.items;
          procs = r.procs.items;
          shared_heaps = length r.names.shared;
          operations = r.operations.operations;
          order = r.operations.order;
        };
      };
    } };

    ghost invariant = { λ r. IsReader (map (λ row. row.items) r.types.items) r.limits.items (length r.names.limits) (length r.names.procs) (length r.operations.operations) };
}

fn is_field(word: &[u8]) -> bool
    ensures { result ≡ is_field word.now }
{
    is(word, b"ref") || is(word, b"int")
}

fn field_of(word: &[u8]) -> Field
    ensures { result ≡ field_of word.now }
{
    if is(word, b"ref") {
        Field::Ref
    } else {
        Field::Int
    }
}

/// Whether the words from the third on are kinds of fields.
fn are_fields(line: &[u8]) -> bool
    ensures { result ≡ list_all is_field (drop 2 (words_of line.now)) }
{
    for place in 2..word_count(line) {
        if !is_field(word(line, place)) {
            return false;
        }
    }
    true
}

fn fields_of(alloc: Global, line: &[u8]) -> Result<Vec<Field>, NoMemory>
    ensures { IfOk result (λ fields. fields.items ≡ map field_of (drop 2 (words_of line.now))) }
{
    let mut fields = Vec::new(alloc);
    for place in 2..word_count(line) {
        fields.push(field_of(word(line, place)))?;
    }
    Ok(fields)
}

impl Reader {
    pub fn new(alloc: Global) -> Reader
        ensures { result ≡ start }
    {
        Reader {
            place: Place::Version,
            version: FIRST_VERSION,
            ceiling: 0,
            dir_fields: 0,
            types: Vec::new(alloc),
            limits: Vec::new(alloc),
            procs: Vec::new(alloc),
            names: Names::new(alloc),
            operations: Operations::new(alloc),
        }
    }

    /// A reader that stands behind the first line of a trace of the first version. A script's header is read by it.
    pub fn past_version(alloc: Global) -> Reader
        ensures { result ≡ past_version }
    {
        let mut reader = Reader::new(alloc);
        reader.place = Place::Kernel;
        reader
    }

    /// Where the next line stands.
    pub fn place(&self) -> Place
        ensures { result ≡ self.now.place }
    {
        self.place
    }

    /// The names that the lines so far declare.
    pub fn names(&self) -> &Names
        ensures { result.now ≡ self.now.said.names }
    {
        &self.names
    }

    #[tactic(auto, unfolding(k_trace::specs::Judgement::version_line, k_trace::specs::Demands::demands))]
    fn version_line(&mut self, line: &[u8]) -> Result<(), LineError>
        ensures { IsJudged result self.new (version_line self.old.said (words_of line.now)) }
    {
        let version = word(line, 1);
        if word_count(line) != 2 || !is(word(line, 0), b"kaffe") || !is_version(version) {
            return Err(LineError::Bad(Reason::NoForm));
        }
        self.version = version_of(version);
        self.place = Place::Kernel;
        Ok(())
    }

    #[tactic(auto, unfolding(k_trace::specs::Judgement::kernel_line, k_trace::specs::Demands::demands))]
    fn kernel_line(&mut self, line: &[u8]) -> Result<(), LineError>
        ensures { IsJudged result self.new (kernel_line self.old.said (words_of line.now)) }
    {
        if word_count(line) != 3 || !is(word(line, 0), b"kernel") {
            return Err(LineError::Bad(Reason::NoForm));
        }
        let Some(ceiling) = number(word(line, 1), MAXIMUM_BELOW as u128) else {
            return Err(LineError::Bad(Reason::NoNumber));
        };
        let Some(dir_fields) = number(word(line, 2), 17) else {
            return Err(LineError::Bad(Reason::NoNumber));
        };
        if 16 + 8 * dir_fields > ceiling {
            return Err(LineError::Bad(Reason::NoRoom));
        }
        self.ceiling = ceiling;
        self.dir_fields = dir_fields as u32;
        self.place = Place::Types;
        Ok(())
    }

    #[tactic(auto, unfolding(k_trace::specs::Judgement::type_line, k_trace::specs::Demands::demands), using(crate::proofs::Readers::few_fields_push))]
    fn type_line(&mut self, alloc: Global, line: &[u8]) -> Result<(), LineError>
        ensures { IsJudged result self.new (type_line self.old.said (words_of line.now)) }
    {
        if word_count(line) < 2 || !are_fields(line) {
            return Err(LineError::Bad(Reason::NoForm));
        }
        let name = word(line, 1);
        if !is_name(name) {
            return Err(LineError::Bad(Reason::NoName));
        }
        if self.names.has_type(name) {
            return Err(LineError::Bad(Reason::NameTaken));
        }
        if word_count(line) > MOST_WORDS || self.names.type_count() >= MOST_TYPES {
            return Err(LineError::Bad(Reason::TooMany));
        }
        let fields = fields_of(alloc, line)?;
        push(&mut self.types, fields)?;
        self.names.declare_type(alloc, name)?;
        self.place = Place::Types;
        Ok(())
    }

    /// Adds a limit behind the others, or nothing where memory runs out.
    fn add_limit(&mut self, alloc: Global, name: &[u8], row: LimitRow) -> Result<(), NoMemory>
        requires new { IsFalse (declares self.old.said.names.limits name.now) }
        requires name { IsTrue (is_name name.now) }
        requires few { length self.old.said.names.limits < most_limits }
        requires reserved { AreReserved (self.old.said.trace.limits ++ row ∷ []) }
        ensures ok { OnOk result (self.new ≡ record { place = Place.Limits; said = with_limit self.old.said name.now row }) }
        ensures unchanged { OnErr result (self.new ≡ self.old) }
    {
        push(&mut self.limits, row)?;
        if let Err(refused) = self.names.declare_limit(alloc, name) {
            let _row = self.limits.pop();
            return Err(refused);
        }
        self.place = Place::Limits;
        Ok(())
    }

    #[tactic(auto, unfolding(k_trace::specs::Judgement::root_line, k_trace::specs::Demands::demands))]
    fn root_line(&mut self, alloc: Global, line: &[u8]) -> Result<(), LineError>
        ensures { IsJudged result self.new (root_line self.old.said (words_of line.now)) }
    {
        if word_count(line) != 3 {
            return Err(LineError::Bad(Reason::NoForm));
        }
        let Some(max) = number(word(line, 2), MAXIMUM_BELOW as u128) else {
            return Err(LineError::Bad(Reason::NoNumber));
        };
        let name = word(line, 1);
        if !is_name(name) {
            return Err(LineError::Bad(Reason::NoName));
        }
        if self.names.has_limit(name) {
            return Err(LineError::Bad(Reason::NameTaken));
        }
        if self.names.limit_count() >= MOST_LIMITS {
            return Err(LineError::Bad(Reason::TooMany));
        }
        let root = LimitRow {
            parent: None,
            hard: true,
            max,
        };
        self.add_limit(alloc, name, root)?;
        Ok(())
    }

    #[tactic(auto, unfolding(k_trace::specs::Judgement::limit_line, k_trace::specs::Demands::demands))]
    fn limit_line(&mut self, alloc: Global, line: &[u8]) -> Result<(), LineError>
        ensures { IsJudged result self.new (limit_line self.old.said (words_of line.now)) }
    {
        let hard = is(word(line, 3), b"hard");
        if word_count(line) != 5 || !(hard || is(word(line, 3), b"soft")) {
            return Err(LineError::Bad(Reason::NoForm));
        }
        let Some(max) = number(word(line, 4), MAXIMUM_BELOW as u128) else {
            return Err(LineError::Bad(Reason::NoNumber));
        };
        let name = word(line, 1);
        if !is_name(name) {
            return Err(LineError::Bad(Reason::NoName));
        }
        if self.names.has_limit(name) {
            return Err(LineError::Bad(Reason::NameTaken));
        }
        let Some(parent) = self.names.limit_named(word(line, 2)) else {
            return Err(LineError::Bad(Reason::Undeclared));
        };
        if self.names.limit_count() >= MOST_LIMITS {
            return Err(LineError::Bad(Reason::TooMany));
        }
        if !has_room(alloc, &self.limits, parent, hard, max)? {
            return Err(LineError::Bad(Reason::NoRoom));
        }
        let row = LimitRow {
            parent: Some(parent),
            hard,
            max,
        };
        self.add_limit(alloc, name, row)?;
        Ok(())
    }

    #[tactic(auto, unfolding(k_trace::specs::Judgement::proc_line, k_trace::specs::Demands::demands))]
    fn proc_line(&mut self, alloc: Global, line: &[u8]) -> Result<(), LineError>
        ensures { IsJudged result self.new (proc_line self.old.said (words_of line.now)) }
    {
        if word_count(line) != 3 {
            return Err(LineError::Bad(Reason::NoForm));
        }
        let name = word(line, 1);
        if !is_name(name) {
            return Err(LineError::Bad(Reason::NoName));
        }
        if self.names.has_proc(name) {
            return Err(LineError::Bad(Reason::NameTaken));
        }
        let Some(limit) = self.names.limit_named(word(line, 2)) else {
            return Err(LineError::Bad(Reason::Undeclared));
        };
        if self.names.proc_count() >= MOST_PROCESSES {
            return Err(LineError::Bad(Reason::TooMany));
        }
        self.operations.add_process(alloc)?;
        push(&mut self.procs, limit)?;
        self.names.declare_proc(alloc, name)?;
        self.place = Place::Procs;
        Ok(())
    }

    #[tactic(auto, unfolding(k_trace::specs::Judgement::shared_line, k_trace::specs::Demands::demands))]
    fn shared_line(&mut self, alloc: Global, line: &[u8]) -> Result<(), LineError>
        ensures { IsJudged result self.new (shared_line self.old.said (words_of line.now)) }
    {
        if word_count(line) != 2 {
            return Err(LineError::Bad(Reason::NoForm));
        }
        let name = word(line, 1);
        if !is_name(name) {
            return Err(LineError::Bad(Reason::NoName));
        }
        if self.names.has_proc(name) || self.names.has_shared(name) {
            return Err(LineError::Bad(Reason::NameTaken));
        }
        if self.names.shared_count() >= MOST_SHARED_HEAPS {
            return Err(LineError::Bad(Reason::TooMany));
        }
        self.names.declare_shared(alloc, name)?;
        self.place = Place::Shared;
        Ok(())
    }

    #[tactic(auto, unfolding(k_trace::specs::Judgement::process_line, k_trace::specs::Demands::demands))]
    fn process_line(&mut self, name: &[u8], op: Op) -> Result<(), LineError>
        ensures { IsJudged result self.new (process_line self.old.said name.now op) }
    {
        let Some(pid) = self.names.proc_named(name) else {
            return Err(LineError::Bad(Reason::Undeclared));
        };
        if self.operations.len() >= MOST_OPERATIONS {
            return Err(LineError::Bad(Reason::TooMany));
        }
        if self.operations.has_exit(pid) {
            return Err(LineError::Bad(Reason::AfterExit));
        }
        self.operations.push(pid, op)?;
        self.place = Place::Operations;
        Ok(())
    }

    #[tactic(auto, unfolding(k_trace::specs::Judgement::operation_line, k_trace::specs::Demands::demands))]
    fn operation_line(&mut self, line: &[u8]) -> Result<(), LineError>
        ensures { IsJudged result self.new (operation_line self.old.said (words_of line.now)) }
    {
        let Some(rest) = after_word(line) else {
            return Err(LineError::Bad(Reason::NoForm));
        };
        match read_op_in(self.version, &self.names, rest) {
            Ok(op) => self.process_line(word(line, 0), op),
            Err(reason) => Err(LineError::Bad(reason)),
        }
    }

    #[tactic(auto, unfolding(k_trace::specs::Judgement::later_line, k_trace::specs::Demands::demands))]
    fn later_line(&mut self, alloc: Global, line: &[u8]) -> Result<(), LineError>
        ensures { IsJudged result self.new (later_line self.old.said (words_of line.now)) }
    {
        let first = word(line, 0);
        if is(first, b"shared") {
            return self.shared_line(alloc, line);
        }
        if is_keyword(first) {
            return Err(LineError::Bad(Reason::NoForm));
        }
        self.operation_line(line)
    }

    #[tactic(auto, unfolding(k_trace::specs::Judgement::line_of_types, k_trace::specs::Demands::demands))]
    fn line_of_types(&mut self, alloc: Global, line: &[u8]) -> Result<(), LineError>
        ensures { IsJudged result self.new (line_of_types self.old.said (words_of line.now)) }
    {
        let first = word(line, 0);
        if is(first, b"type") {
            return self.type_line(alloc, line);
        }
        if is(first, b"limit") {
            return self.root_line(alloc, line);
        }
        Err(LineError::Bad(Reason::NoForm))
    }

    #[tactic(auto, unfolding(k_trace::specs::Judgement::line_of_limits, k_trace::specs::Demands::demands))]
    fn line_of_limits(&mut self, alloc: Global, line: &[u8]) -> Result<(), LineError>
        ensures { IsJudged result self.new (line_of_limits self.old.said (words_of line.now)) }
    {
        let first = word(line, 0);
        if is(first, b"limit") {
            return self.limit_line(alloc, line);
        }
        if is(first, b"proc") {
            return self.proc_line(alloc, line);
        }
        Err(LineError::Bad(Reason::NoForm))
    }

    #[tactic(auto, unfolding(k_trace::specs::Judgement::line_of_procs, k_trace::specs::Demands::demands))]
    fn line_of_procs(&mut self, alloc: Global, line: &[u8]) -> Result<(), LineError>
        ensures { IsJudged result self.new (line_of_procs self.old.said (words_of line.now)) }
    {
        if is(word(line, 0), b"proc") {
            return self.proc_line(alloc, line);
        }
        self.later_line(alloc, line)
    }

    /// Takes the next line, whose length, bytes and words were looked at before.
    #[tactic(auto, unfolding(k_trace::specs::Judgement::line_in, k_trace::specs::Demands::demands))]
    pub fn line_in(&mut self, alloc: Global, line: &[u8]) -> Result<(), LineError>
        ensures { IsJudged result self.new (line_in self.old.place self.old.said (words_of line.now)) }
    {
        match self.place {
            Place::Version => self.version_line(line),
            Place::Kernel => self.kernel_line(line),
            Place::Types => self.line_of_types(alloc, line),
            Place::Limits => self.line_of_limits(alloc, line),
            Place::Procs => self.line_of_procs(alloc, line),
            Place::Shared => self.later_line(alloc, line),
            Place::Operations => self.operation_line(line),
        }
    }

    /// Takes the next line.
    #[tactic(auto, unfolding(k_trace::specs::Judgement::judged_line, k_trace::specs::Demands::demands))]
    pub fn take(&mut self, alloc: Global, line: &[u8]) -> Result<(), LineError>
        ensures { IsJudged result self.new (judged_line self.old line.now) }
    {
        if line.len() > MOST_LINE_BYTES {
            return Err(LineError::Bad(Reason::LongLine));
        }
        if !is_printable(line) {
            return Err(LineError::Bad(Reason::Unprintable));
        }
        if !are_words(line) {
            return Err(LineError::Bad(Reason::NoForm));
        }
        self.line_in(alloc, line)
    }

    /// Whether a limit and a process were read.
    pub fn has_process(&self) -> bool
        ensures { result ≡ has_process self.now.place }
    {
        matches!(self.place, Place::Procs | Place::Shared | Place::Operations)
    }

    /// The trace that all lines say.
    pub fn finish(self, alloc: Global) -> Result<Trace, NoMemory>
        ensures { Finishes result self.said }
    {
        let types = TypeTable::make(alloc, &self.types)?;
        let shared = self.names.shared_count() as u32;
        let (ops, order) = self.operations.into_parts();
        Ok(Trace {
            setup: Setup {
                version: self.version,
                ceiling: self.ceiling,
                dir_fields: self.dir_fields,
                types,
                limits: self.limits,
                procs: self.procs,
                shared,
            },
            names: self.names,
            ops,
            order,
        })
    }
}
