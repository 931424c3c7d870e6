ghost use Rattle.std.specs.Prelude.{◌≡◌, ◌≢◌, ◌⊎◌, false, IfOk, IfErr, List, MatchResult, Ok, Err, ℕ};
ghost use Rattle.sqlite.specs.State.{HasCleanDisk};
ghost use Rattle.sqlite.specs.Held.{state};
ghost use Rattle.fv_datum.specs.Moments.{IsMoment};
ghost use Rattle.fv_store.specs.Stands.{Frame, HasOtherAbout, HoldsRecords, IsBlank, IsEither, IsLive, MayBeFirst, Opens, Stays, TellsAbout};
ghost use Rattle.fv_store.specs.Steps.{CausesStore, IsUpgraded};
ghost use Rattle.fv_store.specs.Stock.{stock_state};
ghost use Rattle.fv_declare_judging.specs.Declares.{Declares};
ghost use Rattle.fv_engine.specs.Laws.{ShowsWhatWasPut, ChangesNoGet, ListsSome, MayChangePlaces, LeavesNothingToList, FailsWhereShut, FailsForRoomAlone, ShowsTheSame, LeavesNothingAtAll, FitsWhereAdded};
ghost use Rattle.fv_engine.specs.Openings.{DeclaresSome, IsInForce, IsLeft, IsMisdeclared};
ghost use Rattle.fv_engine_machine.specs.Machines.{contents};
ghost use Rattle.fv_engine_machine.specs.Services.{GoesOn, ServiceKeeps, Responds, Turned, reign_of};
ghost use Rattle.fv_bundle.specs.Types.{FieldsApart, has_deep};
ghost use Rattle.fv_bundle.specs.TypesView.{types_view};
ghost use Rattle.fv_engine.specs.FaultNames.{open_fault_name};
ghost use Rattle.fv_engine.specs.Steps.{AnswersLine};
ghost use Rattle.fv_engine_reply.specs.Answers.{refused};
ghost use Rattle.fv_engine_reply.specs.Texts.{answer_text};

use fv_bundle::Types;
use fv_declare::DeclFault;
use fv_declare_schema::Schema;
use fv_engine_lines::{LIMIT, Responder};
use fv_engine_machine::{SharedRules, read_rulebook, reply_to_line};
use fv_engine_reply::{Refusal, Reply};
use fv_local::Rulebook;
use fv_registry::RuleSet;
use fv_store::{OpenStoreFault, Store};
use sqlite::{Alter, Connection};
use std::alloc::Global;
use std::marker::Model;
use thiserror::Error;

/// Why an engine wasn't opened.
#[derive(Clone, Copy, Debug, PartialEq, Eq, Error)]
pub enum OpenFault {
    /// The declarations handed in, or those that the database keeps, aren't taken.
    #[error("declarations refused")]
    Declarations(DeclFault),
    /// The database isn't taken.
    #[error("store refused")]
    Store(OpenStoreFault),
    /// An allocation was refused.
    #[error("out of memory")]
    Memory,
}

impl OpenFault {
    /// The fault's name.
    pub fn name(&self) -> &str
        ensures { result.now ≡ open_fault_name self.now }
    {
        match self {
            OpenFault::Declarations(_) => "Declarations",
            OpenFault::Store(_) => "Store",
            OpenFault::Memory => "Memory",
        }
    }
}

/// The record service: the declarations in force with the rules that they use, and the records that a
/// database keeps. Contracts see it as the rules that are there, the text of the declarations in force,
/// and a machine whose records are the store, outside of a transaction.
pub struct Engine<R: RuleSet, S: Alter> {
    rules: SharedRules<R>,
    book: Rulebook<SharedRules<R>>,
    pub(crate) store: Store<S>,
}

impl<R: RuleSet + Drop, S: Alter + Drop> Drop for Engine<R, S> {
    fn drop(self) {
        let Engine {
            rules: _,
            book: _,
            store: _,
        } = self;
    }
}

impl<R: RuleSet, S: Alter> Model for Engine<R, S> {
    ghost use Rattle.std.specs.Coded.{codes};
    ghost use Rattle.fv_builtin.specs.Codes.{pattern_code};
    ghost use Rattle.fv_constraint_tree.specs.Codes.{tree_code};
    ghost use Rattle.fv_constraint_tree.specs.Nodes.{Node};
    ghost use Rattle.fv_declare_schema.specs.Codes.{type_use_code};
    ghost use Rattle.fv_engine_machine.specs.Services.{Service, serving};
    ghost use Rattle.fv_store.specs.Stock.{Stock, stock_code, stock_state};

    ghost Value = { Service (Stock S) };

    ghost coded = { Prim.hlevel (
      codes,
      type_use_code,
      tree_code {N = Node} (Prim.hlevel (codes, pattern_code)),
      stock_code S.code,
    ) };

    ghost view = { λ e. serving (stock_state S.Store) (R.known e.rules) e.book e.store };
}

/// The fault of an engine whose declarations aren't taken.
fn declarations_fault(fault: DeclFault) -> OpenFault
    ensures memory { fault ≡ DeclFault.Memory → result ≡ OpenFault.Memory }
    ensures other { fault ≢ DeclFault.Memory → result ≡ OpenFault.Declarations fault }
{
    match fault {
        DeclFault::Memory => OpenFault::Memory,
        _ => OpenFault::Declarations(fault),
    }
}

/// The fault of an engine whose database isn't taken.
fn store_fault(fault: OpenStoreFault) -> OpenFault
    ensures memory { fault ≡ OpenStoreFault.Memory → result ≡ OpenFault.Memory }
    ensures other { fault ≢ OpenStoreFault.Memory → result ≡ OpenFault.Store fault }
{
    match fault {
        OpenStoreFault::Memory => OpenFault::Memory,
        _ => OpenFault::Store(fault),
    }
}

/// The rulebook of the declarations in force: that of those handed in, where they are the same text.
fn in_force<R: RuleSet + Drop>(
    alloc: Global,
    rules: &SharedRules<R>,
    given: Rulebook<SharedRules<R>>,
    declarations: &[u8],
    text: &[u8],
) -> Result<Rulebook<SharedRules<R>>, OpenFault>
    requires { Declares (R.known rules.now) declarations.now (Ok given) }
    ensures taken { IfOk result (λ b. Declares (R.known rules.now) text.now (Ok b)) }
    ensures refused { IfErr result (λ f. (text.now ≢ declarations.now) × (f ≡ OpenFault.Memory
        ⊎ ((fault : DeclFault) × (f ≡ OpenFault.Declarations fault)
        × Declares (R.known rules.now) text.now (Err fault)))) }
{
    if text == declarations {
        return Ok(given);
    }
    match read_rulebook(alloc, rules, text) {
        Ok(book) => Ok(book),
        Err(fault) => Err(declarations_fault(fault)),
    }
}

impl<R: RuleSet + Drop, S: Alter + Drop> Engine<R, S> {
    /// An engine over a database: an empty one is made ready for these declarations; any other is taken
    /// with its records, and its own declarations are in force. One of version 1 is migrated. The rules
    /// are those that declared constraints use.
    ///
    /// `Declarations` with the fault of the declarations handed in, then `Store` with that of the
    /// database, then `Declarations` with the fault of those that the database keeps; `Memory` at any
    /// place. A refusal hands the connection back, its database as it was; but one of version 1 is the
    /// migrated one, with the same records, where the declarations that it keeps are refused, and perhaps
    /// for want of memory. It drops the rules.
    pub fn open(
        alloc: Global,
        rules: R,
        declarations: &[u8],
        connection: Connection<S>,
    ) -> Result<Engine<R, S>, (OpenFault, Connection<S>)>
        requires { R.means rules }
        // The declarations in force declare what the engine judges by, under the rules handed in.
        ensures declared { IfOk result (λ e. (e.known ≡ R.known rules)
            × Declares e.known e.text (Ok e.machine.declared)) }
        // Those handed in declare something, also where others are in force, and where the store refuses.
        ensures given { MatchResult result (λ e. DeclaresSome (R.known rules) declarations.now)
            (λ r. (fault : _) → r.0 ≡ OpenFault.Store fault → DeclaresSome (R.known rules) declarations.now) }
        // Those of the database are in force, and those handed in over an empty one.
        ensures in_force { IfOk result (λ e. IsInForce (state S.Store connection)
            (stock_state S.Store e.machine.records) declarations.now e.text) }
        ensures frame { MatchResult result
            (λ e. Frame (state S.Store connection) (stock_state S.Store e.machine.records)
            × IsLive (stock_state S.Store e.machine.records))
            (λ r. Frame (state S.Store connection) (state S.Store r.1)) }
        // The records are those that the database handed over, whatever engine kept them there under the same text.
        ensures opened { IfOk result (λ e. (known : _) (ds : _) (m : _) → Declares known e.text (Ok ds)
            → Opens (state S.Store connection) declarations.now (contents e.text ds m)
            → ServiceKeeps (stock_state S.Store) e m) }
        // What is neither empty nor of version 1 is left as it was; one of version 1 is opened only where the text of
        // each row is a bundle by its form, whatever texts they are.
        ensures still { IfOk result (λ e. (IsBlank (state S.Store connection).now → ⊥)
            → Stays (state S.Store connection) (stock_state S.Store e.machine.records)
            ⊎ (HasCleanDisk (stock_state S.Store e.machine.records) → MayBeFirst (state S.Store connection))) }
        ensures upgraded { IfOk result (λ e.
            IsUpgraded (state S.Store connection) (stock_state S.Store e.machine.records)) }
        // Declarations are told by their first fault; those handed in come first, and nothing is migrated then.
        ensures refused { IfErr result (λ r. (fault : _) → r.0 ≡ OpenFault.Declarations fault
            → IsMisdeclared (R.known rules) (state S.Store connection) (state S.Store r.1) declarations.now fault) }
        // Another version is told only where `about` shows one.
        ensures other_version { IfErr result (λ r. r.0 ≡ OpenFault.Store OpenStoreFault.OtherVersion
            → HasCleanDisk (state S.Store r.1) → HasOtherAbout (state S.Store connection)
            × ((version : _) (d : _) → TellsAbout version d (state S.Store connection).now → IsEither version → ⊥)
            × ((c : _) → Opens (state S.Store connection) declarations.now c → ⊥)) }
        // Want of memory below is told as such.
        ensures memory { IfErr result (λ r. r.0 ≢ OpenFault.Store OpenStoreFault.Memory) }
        // The store fails with a cause, whatever the tables are.
        ensures store { IfErr result (λ r. r.0 ≡ OpenFault.Store OpenStoreFault.Store
            → HasCleanDisk (state S.Store r.1) → connection.in_transaction ≡ false
            → CausesStore (state S.Store connection) (state S.Store r.1) declarations.now) }
        // A refusal hands the database back as it was, or migrated.
        ensures left { IfErr result (λ r. IsLeft (R.known rules) declarations.now
            (state S.Store connection) (state S.Store r.1) r.0) }
        ensures stays { IfErr result (λ r. (c : _) → has_deep c.types ≡ false
            → Opens (state S.Store connection) declarations.now c → Opens (state S.Store r.1) declarations.now c) }
    {
        let rules = match SharedRules::new(alloc, rules) {
            Ok(rules) => rules,
            Err(_) => return Err((OpenFault::Memory, connection)),
        };
        let given = match read_rulebook(alloc, &rules, declarations) {
            Ok(given) => given,
            Err(fault) => return Err((declarations_fault(fault), connection)),
        };
        let store = match Store::open(alloc, connection, declarations) {
            Ok(store) => store,
            Err((fault, connection)) => return Err((store_fault(fault), connection)),
        };
        match in_force(alloc, &rules, given, declarations, store.declarations()) {
            Ok(book) => {
                are_shallow(book.schema().types());
                Ok(Engine { rules, book, store })
            }
            Err(fault) => Err((fault, store.into_connection())),
        }
    }
}

/// No type has another in it deeper than is written back.
fn are_shallow(_types: &Types)
    ensures { has_deep (types_view _types.now) ≡ false }
{}

/// Each field of a type has a name of its own.
fn are_apart(types: &Types)
    ensures { FieldsApart (types_view types.now) }
{
    let _types = types;
}

impl<R: RuleSet + Drop, S: Alter> Engine<R, S> {
    /// The reply to a line at a moment, in whole seconds since 1970-01-01T00:00:00Z: one step of
    /// the service.
    pub fn run(&mut self, alloc: Global, line: &[u8], now: i64) -> Reply
        requires { IsMoment now }
        // A step of the declarations in force and of the map.
        ensures step { GoesOn (stock_state S.Store) self.old self.new
            (λ x y. Turned x.known R.meaning (reign_of x) line.now now result (reign_of y)) }
        // The same step, with what the connection to the database has to do with it.
        ensures causes { GoesOn (stock_state S.Store) self.old self.new
            (λ x y. Responds R.meaning x line.now now result y) }
        // What a taken put stored is what a get on the next line shows.
        ensures shows { GoesOn (stock_state S.Store) self.old self.new
            (λ x y. ShowsWhatWasPut R.meaning x.machine.declared line.now result y.machine.records) }
        // A refusal changes no record and no declarations, and so no get.
        ensures unchanged { GoesOn (stock_state S.Store) self.old self.new
            (λ x y. ChangesNoGet result (reign_of x) (reign_of y)) }
        // A refusal for violations lists at least one, of each of its records.
        ensures lists { GoesOn (stock_state S.Store) self.old self.new (λ x y. ListsSome result) }
        // Two taken puts of different ids may change places.
        ensures places { GoesOn (stock_state S.Store) self.old self.new
            (λ x y. MayChangePlaces R.meaning x.machine.declared line.now now result
            x.machine.records y.machine.records) }
        // A taken command leaves nothing to list, of what it put or set.
        ensures nothing { GoesOn (stock_state S.Store) self.old self.new
            (λ x y. LeavesNothingToList R.meaning x.machine.declared line.now now result y.machine.records) }
        // A command but a batch that looks for the record of an id fails over a connection that is shut.
        ensures shut { GoesOn (stock_state S.Store) self.old self.new
            (λ x y. FailsWhereShut line.now result x.machine) }
        // Over an open connection whose disk doesn't fail, as in memory, the store fails for want of room
        // alone, and a redeclare also for more ids than it can count.
        ensures room { GoesOn (stock_state S.Store) self.old self.new
            (λ x y. FailsForRoomAlone R.meaning line.now now result x.machine y.machine) }
        // Behind a taken redeclare each get that doesn't fail shows what it showed.
        ensures same { GoesOn (stock_state S.Store) self.old self.new
            (λ x y. ShowsTheSame R.meaning result (reign_of x) (reign_of y)) }
        // A taken redeclare leaves nothing to list, of any record.
        ensures all { GoesOn (stock_state S.Store) self.old self.new
            (λ x y. LeavesNothingAtAll R.meaning now result (reign_of y)) }
        // Declarations that only add to those in force fit each record.
        ensures added { GoesOn (stock_state S.Store) self.old self.new
            (λ x y. FitsWhereAdded x.known line.now result (reign_of x)) }
    {
        are_apart(self.book.schema().types());
        if line.len() > LIMIT {
            return self.refuse_long();
        }
        reply_to_line(
            &mut self.store,
            alloc,
            &self.rules,
            &mut self.book,
            line,
            now,
        )
    }

    /// The refusal of a line that is over the limit.
    fn refuse_long(&mut self) -> Reply
        ensures refused { result ≡ answer_text (refused Refusal.LineTooLong) }
        ensures same { self.new ≡ self.old }
    {
        Reply::line_too_long()
    }

    /// The declarations in force.
    pub fn schema(&self) -> &Schema
        ensures { result.now ≡ self.now.machine.declared }
    {
        self.book.schema()
    }

    /// The rules that are there.
    pub fn rules(&self) -> &SharedRules<R>
        ensures { R.known result.now ≡ self.now.known }
    {
        &self.rules
    }

    /// The database, without the engine. It takes no memory.
    pub fn into_connection(self) -> Connection<S>
        ensures same { result ≡ self.machine.records.connection }
        ensures holds { (c : _) → HoldsRecords (stock_state S.Store self.machine.records) c
            → HoldsRecords (state S.Store result) c }
    {
        let Engine {
            rules: _,
            book: _,
            store,
        } = self;
        store.into_connection()
    }
}

impl<R: RuleSet + Drop, S: Alter> Responder for Engine<R, S> {
    type Reply = Reply;

    ghost step = { AnswersLine (stock_state S.Store) R.meaning };

    fn answer_line(&mut self, alloc: Global, line: &[u8], now: i64) -> Reply {
        self.run(alloc, line, now)
    }

    fn answer_long(&mut self, _now: i64) -> Reply {
        self.refuse_long()
    }
}
