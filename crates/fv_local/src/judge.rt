//! Uses of constraints at one place, and the numbers of the constraints that they report.
ghost use Rattle.std.specs.Prelude.{◌≡◌, ◌≤◌, ◌+◌, [], ◌++◌, All, map, true, IfOk, OnOk};
ghost use Rattle.std.specs.List.{AllByRecursion};
ghost use Rattle.fv_datum.specs.Moments.{IsMoment};
ghost use Rattle.fv_datum.specs.View.{view};
ghost use Rattle.fv_local.specs.Judges.{AsksKnownUses, CanAsk, numbers_of};
ghost use Rattle.fv_bundle.specs.Views.{object_view};
ghost use Rattle.fv_constraint_tree.specs.Says.{of_datum, of_object};

use fv_bundle::Object;
use fv_constraint_tree::{passes_all, report, report_object};
use fv_datum::Datum;
use fv_declare_schema::Placed;
use fv_registry::{RuleSet, Ruled};
use std::alloc::{AllocError, Global};

/// All uses, the numbers of those that are asked, their rules, and the moment at which they are asked.
#[derive(Drop)]
pub(crate) struct Judge<'a, R: RuleSet> {
    pub(crate) rules: &'a Ruled<R>,
    pub(crate) occurrences: &'a [Placed],
    pub(crate) asked: &'a [usize],
    pub(crate) moment: i64,
}

/// Adds the numbers of a tree's nodes over the whole declarations, where the root has the first.
fn add_numbers(numbers: &mut Vec<usize>, first: usize, reported: &[usize]) -> Result<(), AllocError>
    requires { AllByRecursion (λ n. first + n ≤ 1024) reported.now }
    ensures { OnOk result (numbers.new.items ≡ numbers.old.items ++ map (λ n. first + n) reported.now) }
{
    for number in reported {
        numbers.push(first + *number)?;
    }
    Ok(())
}

impl<R: RuleSet> Judge<'_, R> {
    /// The numbers of the nodes that are reported of a datum.
    pub(crate) fn numbers(&self, alloc: Global, datum: &Datum) -> Result<Vec<usize>, AllocError>
        requires moment { IsMoment self.now.moment }
        requires within { AsksKnownUses self.now }
        requires can { CanAsk self.now }
        ensures { IfOk result (λ v. v.items ≡ numbers_of self.now (of_datum (view datum.now))) }
    {
        let mut numbers = Vec::new(alloc);
        for index in self.asked {
            let placed = &self.occurrences[*index];
            let reported = report(alloc, self.rules, placed.occurrence(), datum, self.moment)?;
            add_numbers(&mut numbers, placed.number(), &reported)?;
        }
        Ok(numbers)
    }

    /// Whether it is known that no node is reported of any of these data. No rule is asked.
    pub(crate) fn passes_all(&self, alloc: Global, data: &[Datum]) -> Result<bool, AllocError>
        requires moment { IsMoment self.now.moment }
        requires within { AsksKnownUses self.now }
        ensures { IfOk result (λ b. b ≡ true → All (λ d. numbers_of self.now (of_datum (view d)) ≡ []) data.now) }
    {
        for index in self.asked {
            let occurrence = self.occurrences[*index].occurrence();
            if !passes_all(alloc, occurrence, data, self.moment)? {
                return Ok(false);
            }
        }
        Ok(true)
    }

    /// The numbers of the nodes that are reported of an object.
    pub(crate) fn object_numbers(
        &self,
        alloc: Global,
        object: &Object,
    ) -> Result<Vec<usize>, AllocError>
        requires moment { IsMoment self.now.moment }
        requires within { AsksKnownUses self.now }
        requires can { CanAsk self.now }
        ensures { IfOk result (λ v. v.items ≡ numbers_of self.now (of_object (object_view object.now))) }
    {
        let mut numbers = Vec::new(alloc);
        for index in self.asked {
            let placed = &self.occurrences[*index];
            let reported = report_object(
                alloc,
                self.rules,
                placed.occurrence(),
                object,
                self.moment,
            )?;
            add_numbers(&mut numbers, placed.number(), &reported)?;
        }
        Ok(numbers)
    }
}
