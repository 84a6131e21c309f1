ghost use Rattle.std.specs.Prelude.{◌≡◌, ◌∷◌, ◌++◌, [], ℕ, List, Some, IfOk, OnOk, ◌||◌, codes, map};
ghost use Rattle.std.specs.Prelude.{option_and_then, option_map};
ghost use Rattle.std.specs.Map.{keys_of};
ghost use Rattle.std.specs.Str.{bytes_eq};
ghost use Rattle.ninja_lines.specs.Shown.{shown_line, text_in};
ghost use Rattle.bp_names.specs.Meaning.{IsSetOf};
ghost use Rattle.ninja_read.specs.Inside.{shown_book, IsLearnt, Takes, Binds, open_keys};
ghost use Rattle.ninja_read.specs.Heads.{form_of, binding_of, rule_name_of, build_statement, defaults_of};
ghost use Rattle.ninja_read.specs.Book.{no_book, bind, book_with_open, with_rule, with_statement, with_defaults};
ghost use Rattle.ninja_read.specs.Book.{with_binding, statements_of, rules_of, names_of_rules, has_text};
ghost use Rattle.ninja_read.specs.Meaning.{with_form, with_line, binds_command};

use crate::command::binds_command;
use crate::form::{LineForm, form_of};
use crate::head::{binding_of, build_of, defaults_of, rule_name_of};
use crate::value::{literal_value, rule_value};
use bp_faults::{OutOfMemory, Seq, Text};
use bp_names::NameSet;
use ninja_file::{NinjaFile, NinjaRule, Statement, is_rule_key};
use ninja_lines::Line;
use std::alloc::Global;
use std::mem;

/// To what bindings belong: nothing yet, a rule, or a statement with the number of its line.
#[derive(Debug, Drop)]
pub enum Open {
    Nothing,
    Rule(NinjaRule),
    Build(u32, Statement),
}

/// What the lines so far give, with the numbers of their lines. The names of the rules and the keys
/// of the last rule or statement are sets too.
#[derive(Drop)]
pub struct Book<'a> {
    pub rules: Vec<NinjaRule>,
    pub statements: Vec<(u32, Statement)>,
    pub defaults: Vec<(u32, Text)>,
    last: Open,
    names: NameSet<'a>,
    keys: NameSet<'a>,
}

// The second part of each pair.
fn seconds<T: Drop>(alloc: Global, pairs: Vec<(u32, T)>) -> Result<Seq<T>, OutOfMemory>
    ensures { IfOk result (λ found. found ≡ map (λ pair. pair.1) pairs.items) }
{
    let mut found = Vec::new(alloc);
    for (_, value) in pairs {
        found.push(value)?;
    }
    Ok(Seq::new(found))
}

fn bind_to_rule<'a>(
    alloc: Global,
    rule: &mut NinjaRule,
    keys: &mut NameSet<'a>,
    key: &'a str,
    written: &str,
) -> Result<bool, OutOfMemory>
    requires { IsSetOf (open_keys (Open.Rule rule.old)) keys.old }
    ensures { IfOk result (λ taken. Binds taken (Open.Rule rule.new) keys.new
        (bind (key.now, written.now) (Open.Rule rule.old)) (Open.Rule rule.old)) }
{
    if !is_rule_key(key) || keys.knows(key) {
        return Ok(false);
    }
    let Some(pieces) = rule_value(alloc, written)? else {
        return Ok(false);
    };
    keys.learn(key)?;
    let key = Text::from_str(alloc, key)?;
    rule.bindings.push((key, Seq::new(pieces)))?;
    Ok(true)
}

fn bind_to_statement<'a>(
    alloc: Global,
    statement: &mut Statement,
    keys: &mut NameSet<'a>,
    key: &'a str,
    written: &str,
) -> Result<bool, OutOfMemory>
    requires { IsSetOf (keys_of statement.old.vars) keys.old }
    ensures { (number : ℕ) → IfOk result (λ taken. Binds taken (Open.Build number statement.new) keys.new
        (bind (key.now, written.now) (Open.Build number statement.old)) (Open.Build number statement.old)) }
{
    if keys.knows(key) {
        return Ok(false);
    }
    let Some(value) = literal_value(alloc, written)? else {
        return Ok(false);
    };
    keys.learn(key)?;
    let key = Text::from_str(alloc, key)?;
    statement.vars.push((key, value))?;
    Ok(true)
}

fn bind<'a>(
    alloc: Global,
    last: &mut Open,
    keys: &mut NameSet<'a>,
    key: &'a str,
    written: &str,
) -> Result<bool, OutOfMemory>
    requires { IsSetOf (open_keys last.old) keys.old }
    ensures { IfOk result (λ taken. Binds taken last.new keys.new (bind (key.now, written.now) last.old) last.old) }
{
    match last {
        Open::Nothing => Ok(false),
        Open::Rule(rule) => {
            let taken = bind_to_rule(alloc, rule, keys, key, written)?;
            Ok(taken)
        }
        Open::Build(_, statement) => {
            let taken = bind_to_statement(alloc, statement, keys, key, written)?;
            Ok(taken)
        }
    }
}

impl<'a> Book<'a> {
    pub fn new(alloc: Global) -> Book<'a>
        ensures shown { shown_book result ≡ no_book }
        ensures learnt { IsLearnt result }
    {
        Book {
            rules: Vec::new(alloc),
            statements: Vec::new(alloc),
            defaults: Vec::new(alloc),
            last: Open::Nothing,
            names: NameSet::new(alloc),
            keys: NameSet::new(alloc),
        }
    }

    // Ends the last rule or statement, and begins a new one.
    fn begin(&mut self, alloc: Global, new: Open) -> Result<(), OutOfMemory>
        ensures shown { OnOk result (shown_book self.new ≡ book_with_open new (shown_book self.old)) }
        ensures names { OnOk result (self.new.names ≡ self.old.names) }
        ensures keys { OnOk result (IsSetOf [] self.new.keys) }
    {
        match mem::replace(&mut self.last, new) {
            Open::Nothing => {}
            Open::Rule(rule) => self.rules.push(rule)?,
            Open::Build(number, statement) => self.statements.push((number, statement))?,
        }
        let _ended = mem::replace(&mut self.keys, NameSet::new(alloc));
        Ok(())
    }

    /// Ends the last rule or statement.
    pub fn end(&mut self, alloc: Global) -> Result<(), OutOfMemory>
        ensures rules { OnOk result (self.new.rules.items ≡ rules_of (shown_book self.old)) }
        ensures statements { OnOk result (self.new.statements.items ≡ statements_of (shown_book self.old)) }
        ensures defaults { OnOk result (self.new.defaults.items ≡ self.old.defaults.items) }
    {
        self.begin(alloc, Open::Nothing)
    }

    /// The file, where the last rule or statement is ended.
    pub fn into_file(self, alloc: Global) -> Result<NinjaFile, OutOfMemory>
        ensures { IfOk result (λ f. f ≡ record {
          rules = self.entry.rules.items;
          statements = map (λ s. s.1) self.entry.statements.items;
          defaults = map (λ d. d.1) self.entry.defaults.items;
        }) }
    {
        Ok(NinjaFile {
            rules: Seq::new(self.rules),
            statements: seconds(alloc, self.statements)?,
            defaults: seconds(alloc, self.defaults)?,
        })
    }

    fn take_rule(
        &mut self,
        alloc: Global,
        name: &'a str,
        has_command: bool,
    ) -> Result<bool, OutOfMemory>
        requires { IsLearnt self.old }
        ensures { IfOk result (λ taken. Takes taken self.new
            (with_rule has_command (shown_book self.old) name.now)
            (shown_book self.old)) }
    {
        if !has_command || self.names.knows(name) {
            return Ok(false);
        }
        self.names.learn(name)?;
        let rule = NinjaRule {
            name: Text::from_str(alloc, name)?,
            bindings: Seq::new(Vec::new(alloc)),
        };
        self.begin(alloc, Open::Rule(rule))?;
        Ok(true)
    }

    // Whether a statement may use a rule.
    fn knows(&self, rule: &str) -> bool
        requires { IsLearnt self.now }
        ensures { result
            ≡ (bytes_eq rule.now (codes "phony") || has_text (names_of_rules (shown_book self.now)) rule.now) }
    {
        rule == "phony" || self.names.knows(rule)
    }

    fn take_statement(
        &mut self,
        alloc: Global,
        number: u32,
        statement: Statement,
    ) -> Result<bool, OutOfMemory>
        requires learnt { IsLearnt self.old }
        requires no_vars { statement.vars ≡ [] }
        ensures { IfOk result (λ taken. Takes taken self.new
            (with_statement number (shown_book self.old) statement)
            (shown_book self.old)) }
    {
        if !self.knows(statement.rule.as_str()) {
            return Ok(false);
        }
        self.begin(alloc, Open::Build(number, statement))?;
        Ok(true)
    }

    fn take_defaults(&mut self, number: u32, paths: Seq<Text>) -> Result<(), OutOfMemory>
        requires { IsLearnt self.old }
        ensures shown { OnOk result (shown_book self.new ≡ with_defaults number (shown_book self.old) paths) }
        ensures learnt { OnOk result (IsLearnt self.new) }
    {
        for path in paths.into_vec() {
            self.defaults.push((number, path))?;
        }
        Ok(())
    }

    fn take_binding(&mut self, alloc: Global, text: &'a str) -> Result<bool, OutOfMemory>
        requires { IsLearnt self.old }
        ensures { IfOk result (λ taken. Takes taken self.new
            (option_and_then (with_binding (shown_book self.old)) (binding_of text.now))
            (shown_book self.old)) }
    {
        let Some((key, written)) = binding_of(text) else {
            return Ok(false);
        };
        let taken = bind(alloc, &mut self.last, &mut self.keys, key, written)?;
        Ok(taken)
    }

    fn take_build(&mut self, alloc: Global, number: u32, rest: &str) -> Result<bool, OutOfMemory>
        requires { IsLearnt self.old }
        ensures { IfOk result (λ taken. Takes taken self.new
            (option_and_then (with_statement number (shown_book self.old)) (build_statement rest.now))
            (shown_book self.old)) }
    {
        let Some(statement) = build_of(alloc, rest)? else {
            return Ok(false);
        };
        let taken = self.take_statement(alloc, number, statement)?;
        Ok(taken)
    }

    fn take_default(&mut self, alloc: Global, number: u32, rest: &str) -> Result<bool, OutOfMemory>
        requires { IsLearnt self.old }
        ensures { IfOk result (λ taken. Takes taken self.new
            (option_map (with_defaults number (shown_book self.old)) (defaults_of rest.now))
            (shown_book self.old)) }
    {
        let Some(paths) = defaults_of(alloc, rest)? else {
            return Ok(false);
        };
        self.take_defaults(number, paths)?;
        Ok(true)
    }

    fn take_rule_line(
        &mut self,
        alloc: Global,
        rest: &'a str,
        more: &[Line<'_>],
    ) -> Result<bool, OutOfMemory>
        requires { IsLearnt self.old }
        ensures { IfOk result (λ taken. Takes taken self.new
            (option_and_then (with_rule (binds_command (map shown_line more.now)) (shown_book self.old))
            (rule_name_of rest.now))
            (shown_book self.old)) }
    {
        let Some(name) = rule_name_of(alloc, rest)? else {
            return Ok(false);
        };
        let taken = self.take_rule(alloc, name, binds_command(more))?;
        Ok(taken)
    }

    fn take_text(
        &mut self,
        alloc: Global,
        number: u32,
        text: &'a str,
        more: &[Line<'_>],
    ) -> Result<bool, OutOfMemory>
        requires { IsLearnt self.old }
        ensures { IfOk result (λ taken. Takes taken self.new
            (with_form number (binds_command (map shown_line more.now)) (shown_book self.old)
            text.now (form_of text.now))
            (shown_book self.old)) }
    {
        match form_of(text) {
            LineForm::NoForm => Ok(false),
            LineForm::Skipped => Ok(true),
            LineForm::Binding => self.take_binding(alloc, text),
            LineForm::Rule(rest) => self.take_rule_line(alloc, rest, more),
            LineForm::Build(rest) => self.take_build(alloc, number, rest),
            LineForm::Default(rest) => self.take_default(alloc, number, rest),
        }
    }

    /// Takes a line, before which the lines so far and behind which more lines stand, or refuses it.
    pub fn take(
        &mut self,
        alloc: Global,
        line: &'a Line<'_>,
        more: &[Line<'_>],
    ) -> Result<bool, OutOfMemory>
        requires { IsLearnt self.old }
        ensures { IfOk result (λ taken. Takes taken self.new
            (with_line line.now.number (text_in line.now.content)
            (binds_command (map shown_line more.now)) (shown_book self.old))
            (shown_book self.old)) }
    {
        match line.text() {
            None => Ok(false),
            Some(text) => self.take_text(alloc, line.number, text, more),
        }
    }
}
