//! Worked examples: the violations of a request, how many visits it has, and how many of them are
//! entered.
#![tactic(auto)]

ghost use Rattle.std.specs.Prelude.{List, [], ◌∷◌, codes};
ghost use Rattle.fv_path.specs.Nodes.{field, index};
ghost use Rattle.fv_walk_traces.specs.Traces.{IsVisit, IsEntered};
ghost use Rattle.fv_walk_traces.specs.Finite.{AreSoMany};
ghost use Rattle.test_walks.specs.Rows.{AreViolations, AreViolationsOfField, null_at, refused_at, row, two_nodes, unset_account, half_account, family, chain, kid, trip};

/// A root refers to itself by `self` and to another object by `left` and `right`: `code`,
/// `left.code` and `right.code`, and three visits.
pub fn object_on_the_way_is_left_out()
    ensures violations { AreViolations (row two_nodes (0 ∷ []))
        (null_at (field (codes "code") ∷ []) 0
        ∷ null_at (field (codes "left") ∷ field (codes "code") ∷ []) 0
        ∷ null_at (field (codes "right") ∷ field (codes "code") ∷ []) 0
        ∷ []) }
    ensures visits { AreSoMany (IsVisit (row two_nodes (0 ∷ []))) 3 }
{}

/// A type's own sequence stops behind the constraints of `Default`, for that object alone: `x` and
/// `sub.x`, and with the root's `x` given `y` and `sub.x`.
pub fn sequence_of_a_type_is_its_own()
    ensures unset { AreViolations (row unset_account (0 ∷ []))
        (null_at (field (codes "x") ∷ []) 0
        ∷ null_at (field (codes "sub") ∷ field (codes "x") ∷ []) 0
        ∷ []) }
    ensures half { AreViolations (row half_account (0 ∷ []))
        (null_at (field (codes "y") ∷ []) 1
        ∷ null_at (field (codes "sub") ∷ field (codes "x") ∷ []) 0
        ∷ []) }
{}

/// A group that is asked for beside `Default` is not stopped by a sequence of `Default`: `x`,
/// `sub.x` and `y`, with four visits, which are all entered.
pub fn group_asked_for_beside_default()
    ensures violations { AreViolations (row unset_account (0 ∷ 1 ∷ []))
        (null_at (field (codes "x") ∷ []) 0
        ∷ null_at (field (codes "sub") ∷ field (codes "x") ∷ []) 0
        ∷ null_at (field (codes "y") ∷ []) 1
        ∷ []) }
    ensures visits { AreSoMany (IsVisit (row unset_account (0 ∷ 1 ∷ []))) 4 }
    ensures entered { AreSoMany (IsEntered (row unset_account (0 ∷ 1 ∷ []))) 4 }
{}

/// For the field `y` alone, `y`: what the sequence meets in `x` stops nothing there.
pub fn other_fields_stop_nothing()
    ensures { AreViolationsOfField (row unset_account (0 ∷ [])) 1
        (null_at (field (codes "y") ∷ []) 1 ∷ []) }
{}

/// Where two elements are converted to a sequence, each stops by itself: `kids[0].a` and
/// `kids[1].b`, with four of five visits entered.
pub fn sequences_by_conversion_stop_apart()
    ensures violations { AreViolations (row family (0 ∷ []))
        (null_at (field (codes "kids") ∷ index 0 ∷ field (codes "a") ∷ []) 0
        ∷ null_at (field (codes "kids") ∷ index 1 ∷ field (codes "b") ∷ []) 1
        ∷ []) }
    ensures visits { AreSoMany (IsVisit (row family (0 ∷ []))) 5 }
    ensures entered { AreSoMany (IsEntered (row family (0 ∷ []))) 4 }
{}

/// Where the same sequence is asked for, it stops as a whole: `kids[0].a`, with three of six visits
/// entered.
pub fn sequence_asked_for_stops_as_a_whole()
    ensures violations { AreViolations (row family (3 ∷ []))
        (null_at (field (codes "kids") ∷ index 0 ∷ field (codes "a") ∷ []) 0 ∷ []) }
    ensures visits { AreSoMany (IsVisit (row family (3 ∷ []))) 6 }
    ensures entered { AreSoMany (IsEntered (row family (3 ∷ []))) 3 }
{}

/// A chain of objects, each of which converts to a sequence of two groups, has twice as many visits
/// for each further object, and the root one: of 12 objects 4,095, of 13 objects 8,191.
pub fn visits_of_a_chain()
    ensures one { AreSoMany (IsVisit (chain 1)) 1 }
    ensures two { AreSoMany (IsVisit (chain 2)) 3 }
    ensures twelve { AreSoMany (IsVisit (chain 12)) 4095 }
    ensures thirteen { AreSoMany (IsVisit (chain 13)) 8191 }
{}

/// A conversion takes place once, and of exactly the group that is carried: of `Full`, `c.d`; of
/// `Default`, `c.o`.
pub fn conversion_takes_place_once()
    ensures full { AreViolations (row kid (1 ∷ []))
        (null_at (field (codes "c") ∷ field (codes "d") ∷ []) 0 ∷ []) }
    ensures default { AreViolations (row kid (0 ∷ []))
        (null_at (field (codes "c") ∷ field (codes "o") ∷ []) 1 ∷ []) }
{}

/// A failure of an object stands at the path to it, whose last node is an index, and its value is
/// the object's name: `legs[1]` and `"b2"`. Of the root it stands at the path without nodes.
pub fn object_fails_at_its_own_path()
    ensures element { AreViolations (trip 0)
        (refused_at (field (codes "legs") ∷ index 1 ∷ []) 0 (codes "b2") ∷ []) }
    ensures root { AreViolations (trip 2) (refused_at [] 0 (codes "b2") ∷ []) }
{}
