//! The schema that declarations without fault declare.
ghost use Rattle.std.specs.Prelude.{◌≡◌, ◌≤◌, ℕ, true, false, Ok, IfOk, IfErr, List, length, map, zip};
ghost use Rattle.std.specs.List.{AllZip};
ghost use Rattle.fv_constraint.specs.Composed.{Planned};
ghost use Rattle.fv_datum.specs.Outcomes.{Gives};
ghost use Rattle.fv_declare_draft.specs.DraftViews.{form_view, draft_view};
ghost use Rattle.fv_constraint_tree.specs.TargetFits.{tree_fits};
ghost use Rattle.fv_flatten.specs.Read.{IsReadTree};
ghost use Rattle.fv_datum.specs.Ascending.{IsAscending};
ghost use Rattle.fv_bundle.specs.TypesView.{types_view};
ghost use Rattle.fv_constraint_tree.specs.Trees.{Tree};
ghost use Rattle.fv_registry.specs.Rules.{Known};
ghost use Rattle.fv_declare_schema.specs.Declarations.{count_nodes};
ghost use Rattle.fv_declare_judging.specs.Conditions.{unknown_root, used_in};
ghost use Rattle.fv_declare_judging.specs.Schemas.{form_declared, form_grouped, IsDeclared};
ghost use Rattle.fv_declare_schema.specs.Fits.{fits};
ghost use Rattle.fv_declare_judging.specs.Judging.{placed_from};
ghost use Rattle.fv_declare_judging.specs.Parts.{IsChecked, IsWhole};
ghost use Rattle.fv_declare_schema.specs.PlacedView.{placed_view};
ghost use Rattle.fv_declare_schema.specs.SchemaView.{forms_view, form_groups_view};
ghost use Rattle.fv_declare_draft.specs.UseViews.{use_view};

use crate::fault::DeclFault;
use crate::parts::Parts;
use fv_bundle::{TypeId, Types};
use fv_constraint_tree::Occurrence;
use fv_declare_draft::{Draft, FormDraft, Use};
use fv_declare_groups::{Grouping, groups_named, sequences_of, valid_places};
use fv_declare_schema::{Form, Groups, NumberedParts, Placed, Schema};
use indexmap::IndexMap;
use std::alloc::{AllocError, Global};

/// The uses with their groups and trees, each at its place, the nodes of all trees numbered from 0.
fn place_all(
    alloc: Global,
    groups: &Groups,
    uses: &[Use],
    trees: Vec<Occurrence>,
) -> Result<Vec<Placed>, AllocError>
    requires each { length trees.items ≡ length uses.now }
    requires few { count_nodes trees.items ≤ 1024 }
    ensures { IfOk result (λ v. map placed_view v.items ≡ placed_from groups.now 0 (map use_view uses.now) trees.items) }
{
    let mut placed = Vec::with_capacity(alloc, uses.len())?;
    let mut rest = trees.into_iter();
    let mut number = 0;
    for given in uses {
        let Some(occurrence) = rest.next() else {
            unreachable!()
        };
        let size = occurrence.size();
        placed.push(Placed::new(
            TypeId {
                index: given.type_index,
            },
            given.place.copy()?,
            number,
            groups_named(alloc, groups, given.groups)?,
            occurrence,
        ))?;
        number += size;
    }
    Ok(placed)
}

fn forms_for(
    alloc: Global,
    types: &Types,
    groups: &Groups,
    forms: &[FormDraft],
) -> Result<IndexMap<String, Form>, DeclFault>
    requires ascend { IsAscending (map (λ f. f.name.now) forms.now) }
    requires known { unknown_root (types_view types.now) (map form_view forms.now) ≡ false }
    ensures { Gives {Y = List (List ℕ × List ℕ) × List (List ℕ × List ℕ)} DeclFault.Memory (λ m. (forms_view (types_view types.now) m, form_groups_view m)) result
        (Ok (map (λ f. form_declared (form_view f)) forms.now, map (λ f. form_grouped groups.now (form_view f)) forms.now)) }
{
    let mut declared = IndexMap::new(alloc);
    for form in forms {
        let Some(root) = types.find(form.root) else {
            return Err(DeclFault::UnknownName);
        };
        let groups = groups_named(alloc, groups, &form.groups)?;
        let _ = declared.insert(String::from_str(alloc, form.name)?, Form { root, groups })?;
    }
    Ok(declared)
}

/// The schema that a draft without fault declares, of its parts and of the trees of its uses.
pub(crate) fn build(
    alloc: Global,
    draft: &Draft,
    uses: &[Use],
    parts: Parts,
    trees: Vec<Occurrence>,
) -> Result<Schema, DeclFault>
    requires checked { IsChecked (draft_view draft.now) (map use_view uses.now) parts }
    requires whole { IsWhole parts }
    requires each { length trees.items ≡ length uses.now }
    requires few { count_nodes trees.items ≤ 1024 }
    ensures taken { IfOk result (λ s. (ts : List (Tree Planned))
        → AllZip (λ u o. IsReadTree u.0.place u.1 o) (zip (used_in (draft_view draft.now)) ts) trees.items
        → IsDeclared (draft_view draft.now) ts s) }
    ensures fits { IfOk result (λ s. (k : Known)
        → AllZip (λ u o. tree_fits k u.place o ≡ true) (used_in (draft_view draft.now)) trees.items → fits k s ≡ true) }
    ensures refused { IfErr result (λ f. f ≡ DeclFault.Memory) }
{
    let (Ok(types), Ok(messages)) = (parts.types, parts.wording) else {
        unreachable!()
    };
    let Grouping { graph, cascades } = parts.groups;
    let Ok(groups) = graph.finish(alloc) else {
        return Err(DeclFault::Memory);
    };
    let numbered = NumberedParts {
        occurrences: place_all(alloc, &groups, uses, trees)?,
        forms: forms_for(alloc, &types, &groups, &draft.forms)?,
        sequences: sequences_of(alloc, &groups, &draft.types)?,
        valid_places: valid_places(alloc, &groups, &cascades)?,
    };
    Ok(Schema::new(types, groups, messages, numbered))
}
