ghost use Rattle.std.specs.Prelude.{◌≡◌};
ghost use Rattle.fv_declare_schema.specs.Groups.{is_a_sequence, group_names_of, inherited_by, members_of};

/// A declared group, as its declaration says it.
#[derive(Drop)]
pub enum GroupDraft {
    /// A plain group, with the names of the groups that it inherits.
    Inherits(Vec<String>),
    /// A sequence of groups, with the names of its members in order.
    Sequence(Vec<String>),
}

impl GroupDraft {
    ghost use Rattle.fv_declare_schema.specs.GroupViews.{form_view, names_view};

    /// Whether the group is a sequence.
    pub(crate) fn is_sequence(&self) -> bool
        ensures { result ≡ is_a_sequence (form_view self.now) }
    {
        matches!(self, GroupDraft::Sequence(_))
    }

    /// All names that the group is declared with.
    pub(crate) fn names(&self) -> &[String]
        ensures { names_view result.now ≡ group_names_of (form_view self.now) }
    {
        match self {
            GroupDraft::Inherits(names) | GroupDraft::Sequence(names) => names,
        }
    }

    /// The names of the groups that the group inherits.
    pub(crate) fn inherited(&self) -> &[String]
        ensures { names_view result.now ≡ inherited_by (form_view self.now) }
    {
        match self {
            GroupDraft::Inherits(names) => names,
            GroupDraft::Sequence(_) => &[],
        }
    }

    /// The names of the sequence's members.
    pub(crate) fn members(&self) -> &[String]
        ensures { names_view result.now ≡ members_of (form_view self.now) }
    {
        match self {
            GroupDraft::Inherits(_) => &[],
            GroupDraft::Sequence(names) => names,
        }
    }
}
