ghost use Rattle.std.specs.Prelude.{◌≡◌, ◌&&◌, OnOk, OnErr, option_copied};
ghost use Rattle.std.proofs.lemmas.Bool.Decides.{Decides-and};
ghost use Rattle.bp_props.specs.Groups.{group_of, EachMerged};
ghost use Rattle.bp_props.specs.Records.{props_empty, props_merged, props_appended, props_followed, props_over};
ghost use Rattle.bp_props.specs.Records.{props_restricted};
ghost use Rattle.bp_props.specs.declared.merge.Winner.TheVariants.{Receiver, Argument};

use crate::given::{copy_name, keep_scalar};
use crate::merge::Winner;
use crate::table::{
    copy_lists, copy_scalars, keep_lists, keep_scalars, merge_lists, merge_scalars, module_scalars,
    same_fields,
};
use crate::{
    Field, Given, GroupId, GroupProps, Groups, Listed, ModuleKind, Multi, module_names,
    module_truths,
};
use bp_faults::{Item, NodeId, OutOfMemory, Path, Payload, Same, Seq, Text};
use std::alloc::Global;

/// The level of a record that no mutator has given one yet.
const NO_LEVEL: u32 = 10_000;

/// The properties of a module, or of a variant of one.
///
/// `base` has what a group may hold too, `address` and `never` are those of `sanitize`, and `groups` has
/// every other group. The last six fields stand in no file: the mutators compute them.
#[derive(Debug)]
pub struct Props {
    pub base: GroupProps,
    pub name: Option<Given<Text>>,
    pub defaults: Listed<Item>,
    pub compile_multilib: Option<Given<Multi>>,
    pub host_supported: Option<Given<bool>>,
    pub device_supported: Option<Given<bool>>,
    pub vendor: Option<Given<bool>>,
    pub vendor_available: Option<Given<bool>>,
    pub recovery: Option<Given<bool>>,
    pub recovery_available: Option<Given<bool>>,
    pub min_sdk_version: Option<Given<u32>>,
    pub address: Option<Given<bool>>,
    pub never: Option<Given<bool>>,
    pub plugin_of: Listed<Item>,
    pub test_per_src: Option<Given<bool>>,
    pub data_bins: Listed<Item>,
    pub groups: Groups,
    pub asan: bool,
    pub level: u32,
    pub exports: Seq<Path>,
    pub includes: Seq<Path>,
    pub line: Seq<NodeId>,
    pub slibs: Seq<NodeId>,
}

impl Drop for Props {
    fn drop(self) {
        let Props {
            base: _,
            name: _,
            defaults: _,
            compile_multilib: _,
            host_supported: _,
            device_supported: _,
            vendor: _,
            vendor_available: _,
            recovery: _,
            recovery_available: _,
            min_sdk_version: _,
            address: _,
            never: _,
            plugin_of: _,
            test_per_src: _,
            data_bins: _,
            groups: _,
            asan: _,
            level: _,
            exports: _,
            includes: _,
            line: _,
            slibs: _,
        } = self;
    }
}

macro_rules! with_names {
    ([$alloc:expr, $($truth:ident)*] $(($name:ident $field:ident))*) => {
        Props {
            base: GroupProps::empty($alloc),
            name: None,
            defaults: Listed::empty(),
            compile_multilib: None,
            $($truth: None,)*
            min_sdk_version: None,
            $($name: Listed::empty(),)*
            groups: Groups::empty($alloc),
            asan: false,
            level: NO_LEVEL,
            exports: Seq::new(Vec::new($alloc)),
            includes: Seq::new(Vec::new($alloc)),
            line: Seq::new(Vec::new($alloc)),
            slibs: Seq::new(Vec::new($alloc)),
        }
    };
}

macro_rules! empty_props {
    ([$alloc:expr] $(($name:ident $field:ident))*) => {
        module_names!(with_names $alloc, $($name)*)
    };
}

impl Props {
    /// A record with nothing set. It takes no memory.
    pub fn empty(alloc: Global) -> Props
        ensures { result ≡ props_empty }
    {
        let empty = module_truths!(empty_props alloc);
        empty
    }

    /// The properties of a group, where the record has it.
    pub fn group(&self, id: GroupId) -> Option<&GroupProps>
        ensures { option_copied result ≡ group_of self.now.groups id }
    {
        self.groups.group(id)
    }

    // Makes this record equal to another. Where memory ran out a part of it may be.
    fn set_all(&mut self, alloc: Global, other: &Props) -> Result<(), OutOfMemory>
        ensures { OnOk result (self.new ≡ other.now) }
    {
        self.base = other.base.copy(alloc)?;
        self.name = copy_name(alloc, &other.name)?;
        self.defaults = other.defaults.copy(alloc)?;
        module_names!(copy_lists self, alloc, other);
        module_scalars!(copy_scalars self, other);
        self.groups = other.groups.copy(alloc)?;
        self.asan = other.asan;
        self.level = other.level;
        self.exports = other.exports.copy(alloc)?;
        self.includes = other.includes.copy(alloc)?;
        self.line = other.line.copy(alloc)?;
        self.slibs = other.slibs.copy(alloc)?;
        Ok(())
    }

    // Merges a record into this one, but for `name` and `defaults`.
    fn merge(&mut self, alloc: Global, other: &Props, winner: Winner) -> Result<(), OutOfMemory>
        ensures ok { OnOk result (self.new ≡ props_merged winner self.old other.now) }
        ensures groups { OnOk result (EachMerged winner self.old.groups other.now.groups self.new.groups) }
        ensures err { OnErr result (self.new ≡ self.old) }
    {
        let groups = self.groups.merged(alloc, &other.groups, winner)?;
        module_names!(merge_lists self, alloc, other, self.base.merge(alloc, &other.base, winner)?);
        self.groups.replace(groups);
        module_scalars!(merge_scalars self, other, winner);
        Ok(())
    }

    /// Appends a group: its lists go behind, and each scalar that it sets replaces.
    pub fn append(&mut self, alloc: Global, group: &GroupProps) -> Result<(), OutOfMemory>
        ensures ok { OnOk result (self.new ≡ props_appended self.old group.now) }
        ensures err { OnErr result (self.new ≡ self.old) }
    {
        self.base.merge(alloc, group, Winner::Argument)
    }

    /// Puts another record behind: its lists go behind, and a scalar is taken only where there is none.
    /// `name` and `defaults` stay.
    pub fn follow(&mut self, alloc: Global, other: &Props) -> Result<(), OutOfMemory>
        ensures ok { OnOk result (self.new ≡ props_followed self.old other.now) }
        ensures groups { OnOk result (EachMerged Receiver self.old.groups other.now.groups self.new.groups) }
        ensures err { OnErr result (self.new ≡ self.old) }
    {
        self.merge(alloc, other, Winner::Receiver)
    }

    /// Puts a module's own properties over these, which its defaults give: its lists go behind, and each
    /// scalar that it sets replaces. `name` and `defaults` become its own.
    pub fn over(&mut self, alloc: Global, own: &Props) -> Result<(), OutOfMemory>
        ensures ok { OnOk result (self.new ≡ props_over self.old own.now) }
        ensures groups { OnOk result (EachMerged Argument self.old.groups own.now.groups self.new.groups) }
        ensures err { OnErr result (self.new ≡ self.old) }
    {
        let name = copy_name(alloc, &own.name)?;
        let defaults = own.defaults.copy(alloc)?;
        self.merge(alloc, own, Winner::Argument)?;
        self.name = name;
        self.defaults = defaults;
        Ok(())
    }

    /// Drops the fields that the table of the kind lacks. What the mutators compute stays. It takes no
    /// memory.
    pub fn restrict(&mut self, kind: ModuleKind)
        ensures { self.new ≡ props_restricted kind self.old }
    {
        self.base.restrict(kind);
        keep_scalar(&mut self.name, kind.has(Field::Name));
        self.defaults.keep_if(kind.has(Field::Defaults));
        module_scalars!(keep_scalars self, kind);
        module_names!(keep_lists self, kind);
        self.groups.restrict(kind);
    }
}

impl Payload for Props {
    fn copy(&self, alloc: Global) -> Result<Self, OutOfMemory> {
        let mut copy = Props::empty(alloc);
        copy.set_all(alloc, self)?;
        Ok(copy)
    }
}

// Whether what the mutators compute is the same in two records.
fn same_computed(props: &Props, other: &Props) -> bool
    ensures { result ≡ (⟦<bool as Same>⟧.same_as props.now.asan other.now.asan
        && (⟦<u32 as Same>⟧.same_as props.now.level other.now.level
        && (⟦<Seq<Path> as Same>⟧.same_as props.now.exports other.now.exports
        && (⟦<Seq<Path> as Same>⟧.same_as props.now.includes other.now.includes
        && (⟦<Seq<NodeId> as Same>⟧.same_as props.now.line other.now.line
        && (⟦<Seq<NodeId> as Same>⟧.same_as props.now.slibs other.now.slibs)))))) }
{
    props.asan.same(&other.asan)
        && props.level.same(&other.level)
        && props.exports.same(&other.exports)
        && props.includes.same(&other.includes)
        && props.line.same(&other.line)
        && props.slibs.same(&other.slibs)
}

impl Same for Props {
    ghost use Rattle.std.proofs.Common.{rules};
    ghost use Rattle.std.specs.Cmp.{booleans_Decides, unsigned_Decides};
    ghost use Rattle.std.specs.Cmp.Lexicographic.{bytes_decides};
    ghost use Rattle.bp_faults.specs.Equalities.{lists_tell, options_tell};
    ghost use Rattle.bp_faults.specs.contracts.same.ItemSame.TheImpl.Laws.{tells-law as item_tells};
    ghost use Rattle.bp_faults.specs.contracts.same.NodeIdSame.TheImpl.Laws.{tells-law as node_tells};
    ghost use Rattle.bp_props.specs.contracts.fields.GroupPropsSame.TheImpl.Laws.{tells-law as group_tells};
    ghost use Rattle.bp_props.specs.contracts.same.GroupsSame.TheImpl.Laws.{tells-law as groups_tells};
    ghost use Rattle.bp_props.specs.contracts.same.MultiSame.TheImpl.Laws.{tells-law as multi_tells};
    ghost use Rattle.bp_props.specs.Same.{given_tells, listed_tells};

    ghost same_as = { λ a b. ⟦<GroupProps as Same>⟧.same_as a.base b.base
        && (⟦<Groups as Same>⟧.same_as a.groups b.groups
        && (⟦<Option<Given<Text>> as Same>⟧.same_as a.name b.name
        && (⟦<Listed<Item> as Same>⟧.same_as a.defaults b.defaults
        && (⟦<Option<Given<Multi>> as Same>⟧.same_as a.compile_multilib b.compile_multilib
        && (⟦<Option<Given<bool>> as Same>⟧.same_as a.host_supported b.host_supported
        && (⟦<Option<Given<bool>> as Same>⟧.same_as a.device_supported b.device_supported
        && (⟦<Option<Given<bool>> as Same>⟧.same_as a.vendor b.vendor
        && (⟦<Option<Given<bool>> as Same>⟧.same_as a.vendor_available b.vendor_available
        && (⟦<Option<Given<bool>> as Same>⟧.same_as a.recovery b.recovery
        && (⟦<Option<Given<bool>> as Same>⟧.same_as a.recovery_available b.recovery_available
        && (⟦<Option<Given<bool>> as Same>⟧.same_as a.address b.address
        && (⟦<Option<Given<bool>> as Same>⟧.same_as a.never b.never
        && (⟦<Option<Given<bool>> as Same>⟧.same_as a.test_per_src b.test_per_src
        && (⟦<Option<Given<u32>> as Same>⟧.same_as a.min_sdk_version b.min_sdk_version
        && (⟦<Listed<Item> as Same>⟧.same_as a.plugin_of b.plugin_of
        && (⟦<Listed<Item> as Same>⟧.same_as a.data_bins b.data_bins
        && (⟦<bool as Same>⟧.same_as a.asan b.asan
        && (⟦<u32 as Same>⟧.same_as a.level b.level
        && (⟦<Seq<Path> as Same>⟧.same_as a.exports b.exports
        && (⟦<Seq<Path> as Same>⟧.same_as a.includes b.includes
        && (⟦<Seq<NodeId> as Same>⟧.same_as a.line b.line
        && (⟦<Seq<NodeId> as Same>⟧.same_as a.slibs b.slibs)))))))))))))))))))))) };

    fn same(&self, other: &Props) -> bool {
        self.base.same(&other.base)
            && self.groups.same(&other.groups)
            && self.name.same(&other.name)
            && self.defaults.same(&other.defaults)
            && self.compile_multilib.same(&other.compile_multilib)
            && module_truths!(same_fields self, other)
            && self.min_sdk_version.same(&other.min_sdk_version)
            && module_names!(same_fields self, other)
            && same_computed(self, other)
    }

    ghost tells = { λ a b. let all =
        Decides-and _ _ (group_tells a.base b.base) (
        Decides-and _ _ (groups_tells a.groups b.groups) (
        Decides-and _ _ (options_tell (given_tells bytes_decides) a.name b.name) (
        Decides-and _ _ (listed_tells item_tells a.defaults b.defaults) (
        Decides-and _ _ (options_tell (given_tells multi_tells) a.compile_multilib b.compile_multilib) (
        Decides-and _ _ (options_tell (given_tells booleans_Decides) a.host_supported b.host_supported) (
        Decides-and _ _ (options_tell (given_tells booleans_Decides) a.device_supported b.device_supported) (
        Decides-and _ _ (options_tell (given_tells booleans_Decides) a.vendor b.vendor) (
        Decides-and _ _ (options_tell (given_tells booleans_Decides) a.vendor_available b.vendor_available) (
        Decides-and _ _ (options_tell (given_tells booleans_Decides) a.recovery b.recovery) (
        Decides-and _ _ (options_tell (given_tells booleans_Decides) a.recovery_available b.recovery_available) (
        Decides-and _ _ (options_tell (given_tells booleans_Decides) a.address b.address) (
        Decides-and _ _ (options_tell (given_tells booleans_Decides) a.never b.never) (
        Decides-and _ _ (options_tell (given_tells booleans_Decides) a.test_per_src b.test_per_src) (
        Decides-and _ _ (options_tell (given_tells unsigned_Decides) a.min_sdk_version b.min_sdk_version) (
        Decides-and _ _ (listed_tells item_tells a.plugin_of b.plugin_of) (
        Decides-and _ _ (listed_tells item_tells a.data_bins b.data_bins) (
        Decides-and _ _ (booleans_Decides a.asan b.asan) (
        Decides-and _ _ (unsigned_Decides a.level b.level) (
        Decides-and _ _ (lists_tell bytes_decides a.exports b.exports) (
        Decides-and _ _ (lists_tell bytes_decides a.includes b.includes) (
        Decides-and _ _ (lists_tell node_tells a.line b.line) (
        lists_tell node_tells a.slibs b.slibs)))))))))))))))))))))) in
        (λ h. let parts = all.0 h in Prim.search rules, λ e. all.1 (Prim.search rules)) };
}
