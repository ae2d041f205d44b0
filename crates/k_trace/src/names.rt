//! The names that a trace declares.
ghost use Rattle.std.specs.Prelude.{◌≡◌, ◌<◌, ◌≤◌, ◌++◌, ◌∷◌, [], length, map, IfOk, OnOk, OnErr, IfSome, IsTrue, IsFalse};
ghost use Rattle.k_words.specs.Names.{declares, is_name};
ghost use Rattle.k_trace.specs.Named.{no_names, type_name, limit_name, proc_name, shared_name};
ghost use Rattle.k_trace.specs.Rules.{AreNames};
ghost use Rattle.k_trace.specs.Numbered.{type_named, limit_named, proc_named, shared_named};

use k_io::NoMemory;
use k_limits::{LimitId, Pid, SharedId, TypeId};
use k_words::NameList;
use std::alloc::Global;
use std::marker::Model;

/// The names that a trace declares, by the numbers of what they name.
///
/// Each name has at most 32 bytes.
pub struct Names {
    types: NameList,
    limits: NameList,
    procs: NameList,
    shared: NameList,
}

impl Drop for Names {
    fn drop(self) {
        let Names {
            types: _,
            limits: _,
            procs: _,
            shared: _,
        } = self;
    }
}

impl Model for Names {
    ghost use Rattle.k_trace.specs.Named.{DeclaredNames};
    ghost use Rattle.k_trace.specs.Numbered.{AreShort};

    ghost Value = { DeclaredNames };

    ghost view = { λ n. record { types = n.types; limits = n.limits; procs = n.procs; shared = n.shared } };

    ghost invariant = { λ n. AreShort (record { types = n.types; limits = n.limits; procs = n.procs; shared = n.shared }) };
}

/// A list of these names, each of which is a name, and no two of which are one.
fn list_of(alloc: Global, names: &[Vec<u8>]) -> Result<NameList, NoMemory>
    requires { AreNames (map (λ name. name.items) names.now) }
    ensures { IfOk result (λ list. list ≡ map (λ name. name.items) names.now) }
{
    let mut list = NameList::new(alloc);
    for name in names {
        list.declare(alloc, name)?;
    }
    Ok(list)
}

impl Names {
    /// The names of these lists, each numbered in the order of its list.
    ///
    /// # Errors
    ///
    /// `NoMemory` where the copies of the names find no room.
    pub fn make(
        alloc: Global,
        types: &[Vec<u8>],
        limits: &[Vec<u8>],
        procs: &[Vec<u8>],
        shared: &[Vec<u8>],
    ) -> Result<Names, NoMemory>
        requires types { AreNames (map (λ name. name.items) types.now) }
        requires limits { AreNames (map (λ name. name.items) limits.now) }
        requires heaps { AreNames (map (λ name. name.items) procs.now ++ map (λ name. name.items) shared.now) }
        requires few_types { length types.now ≤ 256 }
        requires few_limits { length limits.now ≤ 128 }
        requires few_procs { length procs.now ≤ 64 }
        requires few_shared { length shared.now ≤ 64 }
        ensures { IfOk result (λ names. names ≡ record {
          types = map (λ name. name.items) types.now;
          limits = map (λ name. name.items) limits.now;
          procs = map (λ name. name.items) procs.now;
          shared = map (λ name. name.items) shared.now;
        }) }
    {
        let types = list_of(alloc, types)?;
        let limits = list_of(alloc, limits)?;
        let procs = list_of(alloc, procs)?;
        let shared = list_of(alloc, shared)?;
        Ok(Names {
            types,
            limits,
            procs,
            shared,
        })
    }

    /// No names.
    pub fn new(alloc: Global) -> Names
        ensures { result ≡ no_names }
    {
        Names {
            types: NameList::new(alloc),
            limits: NameList::new(alloc),
            procs: NameList::new(alloc),
            shared: NameList::new(alloc),
        }
    }

    /// Declares a type behind the others, or nothing where memory runs out.
    #[tactic(auto, using(crate::proofs::Short::AllShort_append))]
    pub fn declare_type(&mut self, alloc: Global, name: &[u8]) -> Result<(), NoMemory>
        requires new { IsFalse (declares self.old.types name.now) }
        requires name { IsTrue (is_name name.now) }
        requires few { length self.old.types < 256 }
        ensures ok { OnOk result (self.new ≡ record self.old { types = self.old.types ++ name.now ∷ [] }) }
        ensures unchanged { OnErr result (self.new ≡ self.old) }
    {
        self.types.declare(alloc, name)
    }

    /// Declares a limit behind the others, or nothing where memory runs out.
    #[tactic(auto, using(crate::proofs::Short::AllShort_append))]
    pub fn declare_limit(&mut self, alloc: Global, name: &[u8]) -> Result<(), NoMemory>
        requires new { IsFalse (declares self.old.limits name.now) }
        requires name { IsTrue (is_name name.now) }
        requires few { length self.old.limits < 128 }
        ensures ok { OnOk result (self.new ≡ record self.old { limits = self.old.limits ++ name.now ∷ [] }) }
        ensures unchanged { OnErr result (self.new ≡ self.old) }
    {
        self.limits.declare(alloc, name)
    }

    /// Declares a process behind the others, or nothing where memory runs out.
    #[tactic(auto, using(crate::proofs::Short::AllShort_append))]
    pub fn declare_proc(&mut self, alloc: Global, name: &[u8]) -> Result<(), NoMemory>
        requires new { IsFalse (declares self.old.procs name.now) }
        requires name { IsTrue (is_name name.now) }
        requires few { length self.old.procs < 64 }
        ensures ok { OnOk result (self.new ≡ record self.old { procs = self.old.procs ++ name.now ∷ [] }) }
        ensures unchanged { OnErr result (self.new ≡ self.old) }
    {
        self.procs.declare(alloc, name)
    }

    /// Declares a shared heap behind the others, or nothing where memory runs out.
    #[tactic(auto, using(crate::proofs::Short::AllShort_append))]
    pub fn declare_shared(&mut self, alloc: Global, name: &[u8]) -> Result<(), NoMemory>
        requires new { IsFalse (declares self.old.shared name.now) }
        requires name { IsTrue (is_name name.now) }
        requires few { length self.old.shared < 64 }
        ensures ok { OnOk result (self.new ≡ record self.old { shared = self.old.shared ++ name.now ∷ [] }) }
        ensures unchanged { OnErr result (self.new ≡ self.old) }
    {
        self.shared.declare(alloc, name)
    }

    /// The name of a declared type.
    pub fn type_name(&self, ty: TypeId) -> &[u8]
        requires { ty.0 < length self.now.types }
        ensures name { result.now ≡ type_name self.now ty }
        ensures short { length result.now ≤ 32 }
    {
        self.types.name(ty.0 as usize)
    }

    /// The name of a declared limit.
    pub fn limit_name(&self, at: LimitId) -> &[u8]
        requires { at.0 < length self.now.limits }
        ensures name { result.now ≡ limit_name self.now at }
        ensures short { length result.now ≤ 32 }
    {
        self.limits.name(at.0 as usize)
    }

    /// The name of a declared process.
    pub fn proc_name(&self, pid: Pid) -> &[u8]
        requires { pid.0 < length self.now.procs }
        ensures name { result.now ≡ proc_name self.now pid }
        ensures short { length result.now ≤ 32 }
    {
        self.procs.name(pid.0 as usize)
    }

    /// The name of a declared shared heap.
    pub fn shared_name(&self, shared: SharedId) -> &[u8]
        requires { shared.0 < length self.now.shared }
        ensures name { result.now ≡ shared_name self.now shared }
        ensures short { length result.now ≤ 32 }
    {
        self.shared.name(shared.0 as usize)
    }

    /// The number of the type of that name; `None` where no type has it.
    pub fn type_named(&self, name: &[u8]) -> Option<TypeId>
        ensures number { result ≡ type_named self.now name.now }
        ensures declared { IfSome result (λ n. n.0 < length self.now.types) }
    {
        match self.types.number(name) {
            Some(number) => Some(TypeId(number as u32)),
            None => None,
        }
    }

    /// The number of the limit of that name; `None` where no limit has it.
    pub fn limit_named(&self, name: &[u8]) -> Option<LimitId>
        ensures number { result ≡ limit_named self.now name.now }
        ensures declared { IfSome result (λ n. n.0 < length self.now.limits) }
    {
        match self.limits.number(name) {
            Some(number) => Some(LimitId(number as u32)),
            None => None,
        }
    }

    /// The number of the process of that name; `None` where no process has it.
    pub fn proc_named(&self, name: &[u8]) -> Option<Pid>
        ensures number { result ≡ proc_named self.now name.now }
        ensures declared { IfSome result (λ n. n.0 < length self.now.procs) }
        ensures few { IfSome result (λ pid. pid.0 < 64) }
    {
        match self.procs.number(name) {
            Some(number) => Some(Pid(number as u32)),
            None => None,
        }
    }

    /// The number of the shared heap of that name; `None` where no shared heap has it.
    pub fn shared_named(&self, name: &[u8]) -> Option<SharedId>
        ensures number { result ≡ shared_named self.now name.now }
        ensures declared { IfSome result (λ n. n.0 < length self.now.shared) }
        ensures few { IfSome result (λ n. n.0 < 64) }
    {
        match self.shared.number(name) {
            Some(number) => Some(SharedId(number as u32)),
            None => None,
        }
    }

    /// How many types were declared.
    pub fn type_count(&self) -> usize
        ensures count { result ≡ length self.now.types }
        ensures few { result ≤ 256 }
    {
        self.types.len()
    }

    /// Whether a type has that name.
    pub fn has_type(&self, name: &[u8]) -> bool
        ensures { result ≡ declares self.now.types name.now }
    {
        self.types.declares(name)
    }

    /// How many limits were declared.
    pub fn limit_count(&self) -> usize
        ensures count { result ≡ length self.now.limits }
        ensures few { result ≤ 128 }
    {
        self.limits.len()
    }

    /// Whether a limit has that name.
    pub fn has_limit(&self, name: &[u8]) -> bool
        ensures { result ≡ declares self.now.limits name.now }
    {
        self.limits.declares(name)
    }

    /// How many processes are declared.
    pub fn proc_count(&self) -> usize
        ensures count { result ≡ length self.now.procs }
        ensures few { result ≤ 64 }
    {
        self.procs.len()
    }

    /// Whether a process has that name.
    pub fn has_proc(&self, name: &[u8]) -> bool
        ensures { result ≡ declares self.now.procs name.now }
    {
        self.procs.declares(name)
    }

    /// How many shared heaps were declared.
    pub fn shared_count(&self) -> usize
        ensures count { result ≡ length self.now.shared }
        ensures few { result ≤ 64 }
    {
        self.shared.len()
    }

    /// Whether a shared heap has that name.
    pub fn has_shared(&self, name: &[u8]) -> bool
        ensures { result ≡ declares self.now.shared name.now }
    {
        self.shared.declares(name)
    }
}
