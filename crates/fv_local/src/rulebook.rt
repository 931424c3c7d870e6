ghost use Rattle.std.specs.Prelude.{◌≡◌, ◌<◌, ◌↔◌, true, All, map, length, IfOk};
ghost use Rattle.fv_datum.specs.Moments.{IsMoment};
ghost use Rattle.fv_declare_schema.specs.Fits.{fits};
ghost use Rattle.fv_graph.specs.Graph.{IsIn};
ghost use Rattle.fv_local.specs.FailureView.{failure_view, IsFoundIn};
ghost use Rattle.fv_local.specs.Judges.{AreAmong};
ghost use Rattle.fv_local.specs.Own.{own_in};
ghost use Rattle.fv_local.specs.Told.{Told, told_view, IsToldIn, AreRanksIn};
ghost use Rattle.fv_bundle.specs.Views.{object_view};
ghost use Rattle.fv_local.specs.Below.{below};
ghost use Rattle.fv_local.specs.Reached.{AreReached, plain_groups};
ghost use Rattle.fv_local.specs.TableView.{lists_view};
ghost use Rattle.fv_walk_traces.specs.OneField.{own_of_field};
ghost use Rattle.fv_walk_traces.specs.OneObject.{IsLocalIn};
ghost use Rattle.fv_walk_traces.specs.Turns as turn;

use crate::failure::LocalFailure;
use crate::field::{each_of_field, of_field};
use crate::reach::Reach;
use crate::uses::{told_in_ranks, told_of};
use fv_bundle::{Object, TypeId};
use fv_declare_schema::{GroupId, Schema};
use fv_registry::{RuleSet, Ruled};
use std::alloc::{AllocError, Global};
use std::marker::Model;

/// The group `Default`.
const DEFAULT: GroupId = GroupId { index: 0 };

/// What objects are judged by: declarations, rules that they fit, and the table of the uses of
/// constraints that each group reaches. Contracts see it as the declarations.
#[derive(Drop)]
pub struct Rulebook<R: RuleSet> {
    rules: Ruled<R>,
    schema: Schema,
    reach: Reach,
}

impl<R: RuleSet> Model for Rulebook<R> {
    ghost use Rattle.std.specs.Coded.{codes};
    ghost use Rattle.std.specs.Prelude.{◌≡◌, true};
    ghost use Rattle.fv_builtin.specs.Codes.{pattern_code};
    ghost use Rattle.fv_declare_schema.specs.Codes.{type_use_code};
    ghost use Rattle.fv_declare_schema.specs.Declarations.{Declarations};
    ghost use Rattle.fv_declare_schema.specs.Fits.{fits};
    ghost use Rattle.fv_constraint_tree.specs.Codes.{tree_code};
    ghost use Rattle.fv_constraint_tree.specs.Nodes.{Node};
    ghost use Rattle.fv_local.specs.Reached.{IsTableOf};

    ghost Value = { Declarations };

    ghost coded = { Prim.hlevel (codes, type_use_code, tree_code {N = Node} (Prim.hlevel (codes, pattern_code))) };

    ghost view = { λ b. b.schema };

    ghost invariant = { λ b. (fits (R.known b.rules.rules) b.schema ≡ true) × IsTableOf b.schema b.reach };
}

impl<R: RuleSet + Drop> Rulebook<R> {
    /// These declarations with these rules. Where memory is refused, both are dropped.
    pub fn new(alloc: Global, rules: R, schema: Schema) -> Result<Rulebook<R>, AllocError>
        requires means { R.means rules }
        requires fits { fits (R.known rules) schema ≡ true }
        ensures { IfOk result (λ b. b ≡ schema) }
    {
        let reach = Reach::new(alloc, &schema)?;
        Ok(Rulebook {
            rules: Ruled::new(rules),
            schema,
            reach,
        })
    }
}

impl<R: RuleSet> Rulebook<R> {
    /// The declarations.
    pub fn schema(&self) -> &Schema
        ensures { result.now ≡ self.now }
    {
        &self.schema
    }

    /// The uses at a type that a group reaches outside of a sequence of the type.
    fn uses(&self, type_id: TypeId, group: GroupId) -> &[usize]
        requires typed { type_id.index < length self.now.types }
        requires group { group.index < length self.now.groups }
        ensures { AreReached self.now type_id.index (plain_groups self.now type_id.index group.index) result.now }
    {
        self.reach.uses(type_id, group)
    }

    /// The uses that each rank reaches of the sequence that a type has in place of `Default`, where a
    /// group stands for `Default`; none elsewhere.
    fn ranks(&self, type_id: TypeId, group: GroupId) -> &[Vec<usize>]
        requires typed { type_id.index < length self.now.types }
        requires group { group.index < length self.now.groups }
        ensures { AreRanksIn self.now type_id.index (below self.now.groups group.index) (lists_view result.now) }
    {
        if !self.schema.groups().inherits(group, DEFAULT) {
            return &[];
        }
        match self.reach.ranks(type_id) {
            Some(ranks) => ranks,
            None => &[],
        }
    }

    /// What uses tell of an object, and behind that what the first of these ranks does in which
    /// something fails.
    fn told<'a>(
        &'a self,
        alloc: Global,
        uses: &[usize],
        ranks: &[Vec<usize>],
        object: &'a Object,
        now: i64,
    ) -> Result<Vec<LocalFailure<'a>>, AllocError>
        requires moment { IsMoment now }
        requires uses { AreAmong self.now.occurrences uses.now }
        requires ranks { All (λ v. AreAmong self.now.occurrences v.items) ranks.now }
        ensures told { IfOk result (λ v. (x : Told) → IsIn (map told_view v.items) x
            ↔ IsToldIn R.meaning now (object_view object.now) self.now.occurrences uses.now (lists_view ranks.now) x) }
        ensures found { IfOk result (λ v. All (λ f. IsFoundIn (object_view object.now) f.spot) v.items) }
    {
        let occurrences = self.schema.occurrences();
        let mut failures = told_of(alloc, &self.rules, occurrences, uses, object, now)?;
        let mut ranked = told_in_ranks(alloc, &self.rules, occurrences, ranks, object, now)?;
        failures.append(&mut ranked)?;
        Ok(failures)
    }

    /// What fails in an object, by its own constraints in the groups that a plain group stands for,
    /// at a moment in whole seconds since 1970-01-01T00:00:00Z. Where the object's type has a
    /// sequence in place of `Default`, that ends behind the first rank in which something fails.
    ///
    /// A failure may stand there more than once, where its constraint is in more than one group.
    pub fn local<'a>(
        &'a self,
        alloc: Global,
        object: &'a Object,
        group: GroupId,
        now: i64,
    ) -> Result<Vec<LocalFailure<'a>>, AllocError>
        requires moment { IsMoment now }
        requires group { group.index < length self.now.groups }
        ensures exact { IfOk result (λ v. (f : turn.LocalFailure) → IsIn (map failure_view v.items) f
            ↔ IsLocalIn (below self.now.groups group.index) (own_in R.meaning self.now now (object_view object.now)) f) }
        ensures found { IfOk result (λ v. All (λ f. IsFoundIn (object_view object.now) f.spot) v.items) }
    {
        let Some(type_id) = self.schema.types().find(object.type_name()) else {
            return Ok(Vec::new(alloc));
        };
        let uses = self.uses(type_id, group);
        let ranks = self.ranks(type_id, group);
        self.told(alloc, uses, ranks, object, now)
    }

    /// What fails in one field of an object, by its own constraints at the field and inside it in the
    /// groups that a plain group stands for, at a moment in whole seconds since 1970-01-01T00:00:00Z.
    /// Where the object's type has a sequence in place of `Default`, that ends behind the first rank
    /// in which something fails in the field; what fails elsewhere in the object ends nothing.
    ///
    /// The field is given by its number in the object's type. A failure may stand there more than
    /// once, where its constraint is in more than one group.
    pub fn local_of_field<'a>(
        &'a self,
        alloc: Global,
        object: &'a Object,
        group: GroupId,
        field: usize,
        now: i64,
    ) -> Result<Vec<LocalFailure<'a>>, AllocError>
        requires moment { IsMoment now }
        requires group { group.index < length self.now.groups }
        ensures exact { IfOk result (λ v. (f : turn.LocalFailure) → IsIn (map failure_view v.items) f
            ↔ IsLocalIn (below self.now.groups group.index)
            (λ h. own_of_field field (own_in R.meaning self.now now (object_view object.now) h)) f) }
        ensures found { IfOk result (λ v. All (λ f. IsFoundIn (object_view object.now) f.spot) v.items) }
    {
        let Some(type_id) = self.schema.types().find(object.type_name()) else {
            return Ok(Vec::new(alloc));
        };
        let occurrences = self.schema.occurrences();
        let uses = of_field(alloc, occurrences, self.uses(type_id, group), field)?;
        let ranks = each_of_field(alloc, occurrences, self.ranks(type_id, group), field)?;
        self.told(alloc, &uses, &ranks, object, now)
    }
}
