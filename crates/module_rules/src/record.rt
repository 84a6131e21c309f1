ghost use Rattle.std.specs.Arc.{arc_value};
ghost use Rattle.std.specs.Borrow.{Bor};
ghost use Rattle.std.specs.Option.{option_map, option_map_or};
ghost use Rattle.std.specs.Prelude.{◌≡◌, ◌++◌, true, IfOk, OnOk, Some};
ghost use Rattle.bp_props.specs.declared.props.Props.{Props};
ghost use Rattle.module_rules.specs.Found.{found_over, given_of, lists_of, no_lists, pic_if};
ghost use Rattle.module_rules.specs.Found.{with_found_lists, with_pic};
ghost use Rattle.module_rules.specs.Lent.{props_of};

use crate::Lists;
use crate::given::{GivenProps, unshared};
use bp_faults::{NodeId, OutOfMemory, Path, Payload, Text};
use bp_props::Props;
use std::alloc::Global;
use std::marker::Model;
use std::sync::Arc;

/// The properties of a node. What is given is lent by its module or shared by nodes, in the graphs before and after a
/// pass too. What the rules find out is kept beside it: the flag for code that may be loaded at any address, the level,
/// and the lists of `info`. Contracts see the properties alone.
#[derive(Debug, Drop)]
pub struct Record<'m> {
    given: GivenProps<'m>,
    pic: bool,
    level: u32,
    lists: Option<Arc<Lists>>,
}

impl<'m> Model for Record<'m> {
    ghost use Rattle.std.specs.Arc.{arc_value};
    ghost use Rattle.std.specs.Option.{option_map_or};
    ghost use Rattle.bp_props.specs.declared.props.Props.{Props};
    ghost use Rattle.module_rules.specs.Found.{found_over, no_lists};
    ghost use Rattle.module_rules.specs.Lent.{props_of};

    ghost Value = { Props };

    ghost view = { λ r. found_over (props_of r.given) r.pic r.level (option_map_or arc_value r.lists no_lists) };
}

// The lists that properties hold, if one of them holds anything.
fn lists_in(alloc: Global, props: &Props) -> Result<Option<Arc<Lists>>, OutOfMemory>
    ensures { IfOk result (λ lists. option_map_or arc_value lists no_lists ≡ lists_of props.now) }
{
    if has_no_lists(props) {
        return Ok(None);
    }
    let lists = Lists {
        exports: props.exports.copy(alloc)?,
        includes: props.includes.copy(alloc)?,
        line: props.line.copy(alloc)?,
        slibs: props.slibs.copy(alloc)?,
    };
    Ok(Some(Arc::new(alloc, lists)?))
}

fn has_no_lists(props: &Props) -> bool
    ensures { result ≡ true → lists_of props.now ≡ no_lists }
{
    props.exports.as_slice().is_empty()
        && props.includes.as_slice().is_empty()
        && props.line.as_slice().is_empty()
        && props.slibs.as_slice().is_empty()
}

fn unshared_lists(alloc: Global, lists: Option<Arc<Lists>>) -> Result<Lists, OutOfMemory>
    ensures { IfOk result (λ made. made ≡ option_map_or arc_value lists no_lists) }
{
    match lists {
        Some(shared) => unshared(alloc, shared),
        None => Ok(Lists::empty(alloc)),
    }
}

fn add_pic(alloc: Global, props: &mut Props) -> Result<(), OutOfMemory>
    ensures { OnOk result (props.new ≡ with_pic props.old) }
{
    props
        .base
        .cflags
        .push(alloc, Text::from_str(alloc, "-fPIC")?)?;
    Ok(())
}

fn add_pic_if(alloc: Global, props: &mut Props, pic: bool) -> Result<(), OutOfMemory>
    ensures { OnOk result (props.new ≡ found_over props.old pic props.old.level (lists_of props.old)) }
{
    if pic {
        add_pic(alloc, props)?;
    }
    Ok(())
}

impl<'m> Record<'m> {
    /// The record of properties that a module lends.
    pub fn lent(alloc: Global, props: &'m Props) -> Result<Record<'m>, OutOfMemory>
        ensures { IfOk result (λ made. made ≡ props.now) }
    {
        Ok(Record {
            given: GivenProps::Lent(props),
            pic: false,
            level: props.level,
            lists: lists_in(alloc, props)?,
        })
    }

    /// The record of properties that others may hold too. It and its copies share them.
    pub fn shared(alloc: Global, props: Arc<Props>) -> Result<Record<'m>, OutOfMemory>
        ensures { IfOk result (λ made. made ≡ arc_value props) }
    {
        Ok(Record {
            pic: false,
            level: props.level,
            lists: lists_in(alloc, &props)?,
            given: GivenProps::Shared(props),
        })
    }

    /// The record of other properties. Its copies share them.
    pub fn new(alloc: Global, props: Props) -> Result<Record<'m>, OutOfMemory>
        ensures { IfOk result (λ made. made ≡ props) }
    {
        Record::shared(alloc, Arc::new(alloc, props)?)
    }

    /// The same record, which no module lends anything: what is shared stays shared, and what is lent is copied.
    pub fn kept(self, alloc: Global) -> Result<Record<'static>, OutOfMemory>
        ensures { IfOk result (λ made. made ≡ self.entry) }
    {
        Ok(Record {
            given: self.given.kept(alloc)?,
            pic: self.pic,
            level: self.level,
            lists: self.lists,
        })
    }

    /// The properties, where nothing was found yet.
    pub fn plain(&self) -> Option<&Props>
        ensures { (p : Bor Props) → result ≡ Some p → p.now ≡ self.now }
    {
        let given = self.given.props();
        if !self.pic && self.level == given.level && self.lists.is_none() && has_no_lists(given) {
            Some(given)
        } else {
            None
        }
    }

    /// What is given: the properties but for `cflags`, the level and the lists of `info`, which say nothing here.
    pub fn given(&self) -> &Props
        ensures { given_of result.now ≡ given_of self.now }
    {
        self.given.props()
    }

    /// The `cflags`, and whether the flag for code that may be loaded at any address stands behind them.
    pub fn cflags(&self) -> (&[Text], bool)
        ensures { result.0.now ++ pic_if result.1 ≡ self.now.base.cflags.items }
    {
        (self.given.props().base.cflags.items(), self.pic)
    }

    pub fn level(&self) -> u32
        ensures { result ≡ self.now.level }
    {
        self.level
    }

    pub fn exports(&self) -> &[Path]
        ensures { result.now ≡ self.now.exports }
    {
        match &self.lists {
            Some(lists) => lists.exports.as_slice(),
            None => &[],
        }
    }

    pub fn includes(&self) -> &[Path]
        ensures { result.now ≡ self.now.includes }
    {
        match &self.lists {
            Some(lists) => lists.includes.as_slice(),
            None => &[],
        }
    }

    pub fn line(&self) -> &[NodeId]
        ensures { result.now ≡ self.now.line }
    {
        match &self.lists {
            Some(lists) => lists.line.as_slice(),
            None => &[],
        }
    }

    pub fn slibs(&self) -> &[NodeId]
        ensures { result.now ≡ self.now.slibs }
    {
        match &self.lists {
            Some(lists) => lists.slibs.as_slice(),
            None => &[],
        }
    }

    /// The properties, to change them: moved where nobody else holds them, else a copy.
    pub fn into_props(self, alloc: Global) -> Result<Props, OutOfMemory>
        ensures { IfOk result (λ props. props ≡ self.entry) }
    {
        let found = unshared_lists(alloc, self.lists)?;
        let mut props = self.given.into_props(alloc)?;
        add_pic_if(alloc, &mut props, self.pic)?;
        props.level = self.level;
        props.exports = found.exports;
        props.includes = found.includes;
        props.line = found.line;
        props.slibs = found.slibs;
        Ok(props)
    }

    /// The properties, copied.
    pub fn to_props(&self, alloc: Global) -> Result<Props, OutOfMemory>
        ensures { IfOk result (λ props. props ≡ self.now) }
    {
        self.copy(alloc)?.into_props(alloc)
    }

    /// The record with the flag behind its `cflags`.
    pub fn with_pic(self, alloc: Global) -> Result<Record<'m>, OutOfMemory>
        ensures { IfOk result (λ made. made ≡ with_pic self.entry) }
    {
        if self.pic {
            let mut props = self.into_props(alloc)?;
            add_pic(alloc, &mut props)?;
            return Record::new(alloc, props);
        }
        Ok(Record { pic: true, ..self })
    }

    /// A copy with a level.
    pub fn at_level(&self, alloc: Global, level: u32) -> Result<Record<'m>, OutOfMemory>
        ensures { IfOk result (λ made. made ≡ record (self.now) { level = level }) }
    {
        let mut made = self.copy(alloc)?;
        made.level = level;
        Ok(made)
    }

    /// A copy with the lists of `info`.
    pub fn with_lists(&self, alloc: Global, lists: Lists) -> Result<Record<'m>, OutOfMemory>
        ensures { IfOk result (λ made. made ≡ with_found_lists self.now lists) }
    {
        let mut made = self.copy(alloc)?;
        made.lists = Some(Arc::new(alloc, lists)?);
        Ok(made)
    }
}

fn copy_lists(lists: &Option<Arc<Lists>>) -> Result<Option<Arc<Lists>>, OutOfMemory>
    ensures { IfOk result (λ copy. option_map arc_value copy ≡ option_map arc_value lists.now) }
{
    match lists {
        Some(shared) => Ok(Some(shared.clone()?)),
        None => Ok(None),
    }
}

/// A copy is lent the same properties or shares them, and shares the lists.
impl<'m> Payload for Record<'m> {
    fn copy(&self, _alloc: Global) -> Result<Self, OutOfMemory> {
        Ok(Record {
            given: self.given.again()?,
            pic: self.pic,
            level: self.level,
            lists: copy_lists(&self.lists)?,
        })
    }
}
