//! Records are compared exactly: contracts see the same value in both, or the answer is no.
ghost use Rattle.std.specs.Prelude.{◌≡◌, ◌&&◌};
ghost use Rattle.std.specs.Cmp.Lexicographic.{pointwise};
ghost use Rattle.std.proofs.lemmas.Bool.Decides.{Decides-and};

use crate::{Given, GroupId, GroupProps, Groups, Listed, Module, ModuleKind, Multi, Props, Source};
use bp_faults::{Path, Place, Same, Text, same_each};

impl Same for Multi {
    ghost use Rattle.std.proofs.Common.{rules};

    ghost same_as = { ⟦<Multi as PartialEq>⟧.eq };

    fn same(&self, other: &Multi) -> bool {
        self == other
    }

    ghost tells = { Prim.search rules };
}

impl Same for ModuleKind {
    ghost use Rattle.std.proofs.Common.{rules};

    ghost same_as = { ⟦<ModuleKind as PartialEq>⟧.eq };

    fn same(&self, other: &ModuleKind) -> bool {
        self == other
    }

    ghost tells = { Prim.search rules };
}

impl Same for GroupId {
    ghost use Rattle.std.proofs.Common.{rules};

    ghost same_as = { ⟦<GroupId as PartialEq>⟧.eq };

    fn same(&self, other: &GroupId) -> bool {
        self == other
    }

    ghost tells = { Prim.search rules };
}

impl Same for Source {
    ghost use Rattle.std.proofs.Common.{rules};

    ghost same_as = { ⟦<Source as PartialEq>⟧.eq };

    fn same(&self, other: &Source) -> bool {
        self == other
    }

    ghost tells = { Prim.search rules };
}

impl<T: Same> Same for Given<T> {
    ghost use Rattle.bp_props.specs.Same.{same_given, given_tells};

    ghost same_as = { same_given T.same_as };

    fn same(&self, other: &Given<T>) -> bool {
        self.value.same(&other.value) && self.at.same(&other.at)
    }

    ghost tells = { given_tells T.tells };
}

impl<T: Same> Same for Listed<T> {
    ghost use Rattle.bp_props.specs.Same.{same_listed, listed_tells};

    ghost same_as = { same_listed T.same_as };

    fn same(&self, other: &Listed<T>) -> bool {
        same_each(self.items(), other.items()) && self.at().same(&other.at())
    }

    ghost tells = { listed_tells T.tells };
}

impl Same for Groups {
    ghost use Rattle.bp_faults.specs.Equalities.{lists_tell, pairs_tell};
    ghost use Rattle.bp_props.specs.contracts.same.GroupIdSame.TheImpl.Laws.{tells-law as id_tells};
    ghost use Rattle.bp_props.specs.contracts.fields.GroupPropsSame.TheImpl.Laws.{tells-law as group_tells};

    ghost same_as = { pointwise ⟦<(GroupId, GroupProps) as Same>⟧.same_as };

    fn same(&self, other: &Groups) -> bool {
        same_each(self.as_slice(), other.as_slice())
    }

    ghost tells = { lists_tell (pairs_tell id_tells group_tells) };
}

impl Same for Module {
    ghost use Rattle.std.proofs.Common.{rules};
    ghost use Rattle.std.specs.Cmp.Lexicographic.{bytes_decides};
    ghost use Rattle.bp_faults.specs.contracts.same.PlaceSame.TheImpl.Laws.{tells-law as place_tells};
    ghost use Rattle.bp_props.specs.contracts.same.ModuleKindSame.TheImpl.Laws.{tells-law as kind_tells};
    ghost use Rattle.bp_props.specs.contracts.props.PropsSame.TheImpl.Laws.{tells-law as props_tells};

    ghost same_as = { λ a b. ⟦<Text as Same>⟧.same_as a.name b.name
        && (⟦<ModuleKind as Same>⟧.same_as a.kind b.kind
        && (⟦<Path as Same>⟧.same_as a.dir b.dir
        && (⟦<Place as Same>⟧.same_as a.at b.at
        && (⟦<Props as Same>⟧.same_as a.props b.props)))) };

    fn same(&self, other: &Module) -> bool {
        self.name.same(&other.name)
            && self.kind.same(&other.kind)
            && self.dir.same(&other.dir)
            && self.at.same(&other.at)
            && self.props.same(&other.props)
    }

    ghost tells = { λ a b. let all =
        Decides-and _ _ (bytes_decides a.name b.name) (
        Decides-and _ _ (kind_tells a.kind b.kind) (
        Decides-and _ _ (bytes_decides a.dir b.dir) (
        Decides-and _ _ (place_tells a.at b.at) (
        props_tells a.props b.props)))) in
        (λ h. let parts = all.0 h in Prim.search rules, λ e. all.1 (Prim.search rules)) };
}
