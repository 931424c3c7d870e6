//! Every stored record is read again under other declarations, from what is written of it, and judged by
//! the groups of its form, page by page.
ghost use Rattle.std.specs.Prelude.{◌≡◌, ◌≢◌, ◌++◌, ◌∷◌, ◌<◌, ◌≤◌, [], ℕ, List, Ok, Err, Some, None, IfErr, IfOk, IfSome, MatchResult, false, length, map, option_map, string_bytes};
ghost use Rattle.std.specs.Map.{keys_of};
ghost use Rattle.serde_json.specs.Read.{read};
ghost use Rattle.sqlite.specs.State.{HasCleanDisk};
ghost use Rattle.fv_datum.specs.Moments.{IsMoment};
ghost use Rattle.fv_declare_schema.specs.Declarations.{Declarations};
ghost use Rattle.fv_engine_pending.specs.FaultNames.{rejudge_fault_name};
ghost use Rattle.fv_engine_pending.specs.Judging.{AreListingsOf};
ghost use Rattle.fv_engine_pending.specs.Passes.{AreKnown, AreSo, FirstFails, IsReread, NextDone, NextFails, OneFails, OnlyReads, PageFails, Reaches, Sure, WrittenFails, all_reread, last_of, of_json, of_store};
ghost use Rattle.fv_engine_pending.specs.Records.{AreJudged, OneIsOver, with_some};
ghost use Rattle.fv_engine_pending.specs.Rejudging.{IsOfRecord, RejudgeFails};
ghost use Rattle.fv_engine_pending.specs.Again.{AllReadAgain, all_again};
ghost use Rattle.fv_validate.specs.ViolationView.{judged_view};
ghost use Rattle.fv_validate.specs.Violations.{Judged as Told};
ghost use Rattle.fv_bundle.specs.Views.{bundle_view};
ghost use Rattle.fv_bundle.specs.WellTyped.{IsWellTyped};
ghost use Rattle.fv_bundle.specs.Types.{has_deep};
ghost use Rattle.fv_store.specs.Causes.{HasFailed};
ghost use Rattle.fv_store.specs.Records.{Contents, Kept};
ghost use Rattle.fv_store.specs.Stands.{Frame, HoldsRecords, IsLive, Stays};
ghost use Rattle.fv_store.specs.Stock.{stock_state};
ghost use Rattle.fv_store.specs.Stored.{stored_view, written_view};

use crate::fault::PartFault;
use crate::judging::add_judged;
use fv_bundle::Bundle;
use fv_datum::{JsonFault, read_text};
use fv_declare_schema::Schema;
use fv_local::Rulebook;
use fv_model::{BundleFault, read_bundle};
use fv_registry::RuleSet;
use fv_store::{Store, StoreFault, Stored, Written};
use fv_validate::{Judged, ValidateFault};
use sqlite::Alter;
use std::alloc::Global;

/// How many ids are asked for at once.
const PAGE: u32 = 1_000;

/// How many pages of ids are looked at, at most.
const MOST_PAGES: u64 = 1 << 32;

/// Why the records aren't all judged.
#[derive(Drop)]
pub enum RejudgeFault {
    /// The first stored record by its id that can't be read, and why.
    Unfit { id: String, why: PartFault },
    /// A record has more than 4,096 visits.
    TooManyVisits,
    /// The store couldn't do it.
    Store,
    /// An allocation was refused.
    Memory,
}

impl RejudgeFault {
    /// The fault's name.
    pub fn name(&self) -> &str
        ensures { result.now ≡ rejudge_fault_name self.now }
    {
        match self {
            RejudgeFault::Unfit { .. } => "Unfit",
            RejudgeFault::TooManyVisits => "TooManyVisits",
            RejudgeFault::Store => "Store",
            RejudgeFault::Memory => "Memory",
        }
    }
}

impl From<StoreFault> for RejudgeFault {
    ghost from_gives = { λ e fault. fault ≡ of_store e };

    fn from(fault: StoreFault) -> RejudgeFault {
        match fault {
            StoreFault::Store => RejudgeFault::Store,
            StoreFault::Memory => RejudgeFault::Memory,
        }
    }
}

impl From<JsonFault> for RejudgeFault {
    ghost from_gives = { λ e fault. fault ≡ of_json e };

    fn from(fault: JsonFault) -> RejudgeFault {
        match fault {
            JsonFault::NotJson => RejudgeFault::Store,
            JsonFault::Memory => RejudgeFault::Memory,
        }
    }
}

/// What is known so far of records that were judged: those that have violations, or that one has too
/// many visits, after which no more is judged.
#[derive(Drop)]
enum Verdicts {
    Listed(Vec<Judged>),
    Over,
}

/// Refuses the record of an id.
fn unfit(alloc: Global, id: &str, why: PartFault) -> RejudgeFault
    ensures { (ds : Declarations) (w : _) → IsReread ds w (Err why) → WrittenFails ds id.now w result }
{
    match String::from_str(alloc, id) {
        Ok(id) => RejudgeFault::Unfit { id, why },
        Err(_) => RejudgeFault::Memory,
    }
}

/// Refuses the record of an id by the fault of its bundle.
fn misread(alloc: Global, id: &str, fault: BundleFault) -> RejudgeFault
    ensures { (ds : Declarations) (w : _) → (fault ≢ BundleFault.Memory → IsReread ds w (Err (PartFault.Bundle fault)))
        → WrittenFails ds id.now w result }
{
    match fault {
        BundleFault::Memory => RejudgeFault::Memory,
        _ => unfit(alloc, id, PartFault::Bundle(fault)),
    }
}

/// The bundle that a text spells under a form, as one that is put. `Store` where the text is no JSON.
fn bundle_again(
    alloc: Global,
    schema: &Schema,
    id: &str,
    form: &str,
    text: &str,
) -> Result<Bundle, RejudgeFault>
    ensures read { MatchResult result (λ b. IsReread schema.now (form.now, read text.now)
        (Ok (record { form = form.now; bundle = bundle_view b })))
        (λ f. WrittenFails schema.now id.now (form.now, read text.now) f) }
    ensures typed { IfOk result (λ b. IsWellTyped schema.now.types (bundle_view b)) }
{
    let root = schema.root_of(form);
    if root.is_none() {
        return Err(unfit(alloc, id, PartFault::UnknownForm));
    }
    let value = read_text(alloc, text)?;
    match read_bundle(alloc, schema.types(), root, &value) {
        Ok(bundle) => Ok(bundle),
        Err(fault) => Err(misread(alloc, id, fault)),
    }
}

/// Reads a record again, from what is written of it.
fn read_again(
    alloc: Global,
    schema: &Schema,
    id: &str,
    written: Written,
) -> Result<Stored, RejudgeFault>
    ensures read { MatchResult result (λ s. IsReread schema.now (written_view written) (Ok (stored_view s)))
        (λ f. WrittenFails schema.now id.now (written_view written) f) }
    ensures typed { IfOk result (λ s. IsWellTyped schema.now.types (stored_view s).bundle) }
{
    let bundle = bundle_again(
        alloc,
        schema,
        id,
        written.form.as_str(),
        written.bundle.as_str(),
    )?;
    Ok(Stored {
        form: written.form,
        bundle,
    })
}

/// Judges one more record, unless one before has too many visits.
fn judge_next<R: RuleSet>(
    alloc: Global,
    book: &Rulebook<R>,
    id: &str,
    stored: &Stored,
    verdicts: &mut Verdicts,
    now: i64,
) -> Result<(), RejudgeFault>
    requires moment { IsMoment now }
    requires typed { IsWellTyped book.now.types (stored_view stored.now).bundle }
    ensures { MatchResult result
        (λ _. (ks : List (List ℕ × Kept)) → AreSo R.meaning book.now now verdicts.old ks
        → AreSo R.meaning book.now now verdicts.new (ks ++ (id.now, stored_view stored.now) ∷ []))
        (λ f. f ≡ RejudgeFault.Memory) }
{
    match verdicts {
        Verdicts::Over => Ok(()),
        Verdicts::Listed(judged) => match add_judged(alloc, book, judged, id, stored, now) {
            Ok(()) => Ok(()),
            Err(ValidateFault::TooManyVisits) => {
                *verdicts = Verdicts::Over;
                Ok(())
            }
            Err(_) => Err(RejudgeFault::Memory),
        },
    }
}

/// Reads a record again, from what is written of it, and judges it.
fn judge_written<R: RuleSet>(
    alloc: Global,
    book: &Rulebook<R>,
    id: &str,
    written: Written,
    verdicts: &mut Verdicts,
    now: i64,
) -> Result<(), RejudgeFault>
    requires moment { IsMoment now }
    ensures { MatchResult result
        (λ _. (s : Kept) × IsReread book.now (written_view written) (Ok s)
        × ((ks : List (List ℕ × Kept)) → AreSo R.meaning book.now now verdicts.old ks
        → AreSo R.meaning book.now now verdicts.new (ks ++ (id.now, s) ∷ [])))
        (λ f. WrittenFails book.now id.now (written_view written) f) }
{
    let stored = read_again(alloc, book.schema(), id, written)?;
    judge_next(alloc, book, id, &stored, verdicts, now)
}

/// Reads a record again and judges it.
fn judge_one<R: RuleSet, S: Alter>(
    store: &mut Store<S>,
    alloc: Global,
    book: &Rulebook<R>,
    id: &str,
    verdicts: &mut Verdicts,
    now: i64,
) -> Result<(), RejudgeFault>
    requires moment { IsMoment now }
    ensures reads { OnlyReads (stock_state S.Store store.old) (stock_state S.Store store.new) }
    ensures text { store.new.text ≡ store.old.text }
    ensures open { MatchResult result (λ _. IsLive (stock_state S.Store store.new))
        (λ f. IsOfRecord f → IsLive (stock_state S.Store store.new)) }
    ensures read { MatchResult result
        (λ _. (s : Kept) × Sure (stock_state S.Store store.old) (stock_state S.Store store.new)
        (λ m. all_reread book.now m id.now ≡ Some (Ok s))
        × ((ks : List (List ℕ × Kept)) → AreSo R.meaning book.now now verdicts.old ks
        → AreSo R.meaning book.now now verdicts.new (ks ++ (id.now, s) ∷ [])))
        (λ f. OneFails book.now (stock_state S.Store store.old) (stock_state S.Store store.new) id.now f) }
{
    match store.written(alloc, id)? {
        Some(written) => judge_written(alloc, book, id, written, verdicts, now),
        None => Err(RejudgeFault::Store),
    }
}

/// Reads the record of the empty id again, which no page lists, and judges it, if there is one.
fn judge_first<R: RuleSet, S: Alter>(
    store: &mut Store<S>,
    alloc: Global,
    book: &Rulebook<R>,
    verdicts: &mut Verdicts,
    now: i64,
) -> Result<(), RejudgeFault>
    requires moment { IsMoment now }
    ensures reads { OnlyReads (stock_state S.Store store.old) (stock_state S.Store store.new) }
    ensures text { store.new.text ≡ store.old.text }
    ensures open { IfErr result (λ f. IsOfRecord f → IsLive (stock_state S.Store store.new)) }
    ensures read { MatchResult result
        (λ _. (read : List (List ℕ × Kept)) × Sure (stock_state S.Store store.old) (stock_state S.Store store.new)
        (λ m. Reaches (all_reread book.now m) [] read)
        × (AreSo R.meaning book.now now verdicts.old [] → AreSo R.meaning book.now now verdicts.new read))
        (λ f. FirstFails book.now (stock_state S.Store store.old) (stock_state S.Store store.new) f) }
{
    match store.written(alloc, "")? {
        Some(written) => judge_written(alloc, book, "", written, verdicts, now),
        None => Ok(()),
    }
}

/// Reads the records of a page again and judges them.
fn judge_page<R: RuleSet, S: Alter>(
    store: &mut Store<S>,
    alloc: Global,
    book: &Rulebook<R>,
    ids: &[String],
    verdicts: &mut Verdicts,
    now: i64,
) -> Result<(), RejudgeFault>
    requires moment { IsMoment now }
    ensures reads { OnlyReads (stock_state S.Store store.old) (stock_state S.Store store.new) }
    ensures text { store.new.text ≡ store.old.text }
    ensures open { MatchResult result (λ _. IsLive (stock_state S.Store store.old) → IsLive (stock_state S.Store store.new))
        (λ f. IsOfRecord f → IsLive (stock_state S.Store store.new)) }
    ensures read { MatchResult result
        (λ _. (read : List (List ℕ × Kept)) × (keys_of read ≡ map string_bytes ids.now)
        × Sure (stock_state S.Store store.old) (stock_state S.Store store.new)
        (λ m. AreKnown (all_reread book.now m) read)
        × ((ks : List (List ℕ × Kept)) → AreSo R.meaning book.now now verdicts.old ks
        → AreSo R.meaning book.now now verdicts.new (ks ++ read)))
        (λ f. PageFails book.now (stock_state S.Store store.old) (stock_state S.Store store.new)
        (map string_bytes ids.now) f) }
{
    for id in ids {
        judge_one(store, alloc, book, id.as_str(), verdicts, now)?;
    }
    Ok(())
}

/// The last id of a page that is full.
fn full_page(ids: Vec<String>) -> Option<String>
    ensures last { IfSome result (λ s. (above : List ℕ) → string_bytes s ≡ last_of above (map string_bytes ids.items)) }
    ensures full { IfSome result (λ _. 1000 ≤ length ids.items) }
    ensures few { result ≡ None → length ids.items < 1000 }
{
    let mut ids = ids;
    if ids.len() < PAGE as usize {
        return None;
    }
    ids.pop()
}

/// Reads the records of the next page again, whose ids are above one, and judges them. The last id of the
/// page where it is full.
fn judge_next_page<R: RuleSet, S: Alter>(
    store: &mut Store<S>,
    alloc: Global,
    book: &Rulebook<R>,
    above: &str,
    verdicts: &mut Verdicts,
    now: i64,
) -> Result<Option<String>, RejudgeFault>
    requires moment { IsMoment now }
    ensures reads { OnlyReads (stock_state S.Store store.old) (stock_state S.Store store.new) }
    ensures text { store.new.text ≡ store.old.text }
    ensures open { MatchResult result (λ _. IsLive (stock_state S.Store store.new))
        (λ f. IsOfRecord f → IsLive (stock_state S.Store store.new)) }
    ensures read { MatchResult result
        (λ o. NextDone (AreSo R.meaning book.now now) book.now (stock_state S.Store store.old)
        (stock_state S.Store store.new) verdicts.old verdicts.new above.now (option_map string_bytes o))
        (λ f. NextFails book.now (stock_state S.Store store.old) (stock_state S.Store store.new) above.now f) }
{
    let ids = store.ids(alloc, Some(above), PAGE)?;
    judge_page(store, alloc, book, &ids, verdicts, now)?;
    Ok(full_page(ids))
}

/// The answer by what all records were judged as.
fn settled(verdicts: Verdicts) -> Result<Vec<Judged>, RejudgeFault>
    ensures { (means : _) (ds : Declarations) (now : _) (ks : List (List ℕ × Kept)) → AreSo means ds now verdicts ks
        → MatchResult result
        (λ v. (ls : List Told) × AreJudged means ds now ks ls × (map judged_view v.items ≡ with_some ls))
        (λ f. (f ≡ RejudgeFault.TooManyVisits) × OneIsOver ds ks) }
{
    match verdicts {
        Verdicts::Listed(judged) => Ok(judged),
        Verdicts::Over => Err(RejudgeFault::TooManyVisits),
    }
}

/// The stored records that have violations for the groups of their forms, with all of them, by id, where
/// each is read again under the declarations of a rulebook, from what is written of it. They need not be
/// those in force. One page of ids and one record are in memory at a time.
///
/// Refused by `Unfit` for the first record by its id that can't be read; else by `TooManyVisits` where one
/// has more than 4,096 visits; by `Memory` at any place, and by `Store` only where the disk has failed
/// during the call or the connection was shut before, or behind 2^32 pages of ids, if the store holds
/// records.
pub fn judge_all<R: RuleSet, S: Alter>(
    store: &mut Store<S>,
    alloc: Global,
    book: &Rulebook<R>,
    now: i64,
) -> Result<Vec<Judged>, RejudgeFault>
    requires moment { IsMoment now }
    ensures frame { Frame (stock_state S.Store store.old) (stock_state S.Store store.new) }
    ensures text { store.new.text ≡ store.old.text }
    ensures open { MatchResult result (λ _. IsLive (stock_state S.Store store.new))
        (λ f. IsOfRecord f → IsLive (stock_state S.Store store.new)) }
    ensures judged { HasCleanDisk (stock_state S.Store store.new) → IfOk result (λ v. (c : Contents)
        → has_deep c.types ≡ false → HoldsRecords (stock_state S.Store store.old) c
        → AllReadAgain book.now.types book.now.forms c.records
        × AreListingsOf R.meaning book.now now (λ id k. all_again book.now.types book.now.forms c.records id ≡ Some k)
        (map judged_view v.items)) }
    ensures refused { HasCleanDisk (stock_state S.Store store.new) → IfErr result (λ f. (c : Contents)
        → has_deep c.types ≡ false → HoldsRecords (stock_state S.Store store.old) c
        → RejudgeFails book.now c.records (HasFailed (stock_state S.Store store.old) (stock_state S.Store store.new)) f) }
    ensures stays { (c : Contents) → HoldsRecords (stock_state S.Store store.old) c
        → HoldsRecords (stock_state S.Store store.new) c }
    ensures untouched { (c : Contents) → HoldsRecords (stock_state S.Store store.old) c
        → Stays (stock_state S.Store store.old) (stock_state S.Store store.new) }
{
    let mut verdicts = Verdicts::Listed(Vec::new(alloc));
    judge_first(store, alloc, book, &mut verdicts, now)?;
    let mut above = String::new(alloc);
    for _ in 0..MOST_PAGES {
        match judge_next_page(store, alloc, book, above.as_str(), &mut verdicts, now)? {
            Some(last) => above = last,
            None => return settled(verdicts),
        }
    }
    Err(RejudgeFault::Store)
}
