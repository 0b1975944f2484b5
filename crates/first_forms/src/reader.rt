//! Tokens to a tree, one token at a time: the state says which tokens may come next, so that a fault is known at its first token.
ghost use Rattle.std.specs.Prelude.{◌≡◌, ℕ, List, Some, codes, nat_le, if◌then◌else◌, IfOk, IfErr, OnOk, MatchResult};
ghost use Rattle.first_trees.specs.declared.Module.{Module};
ghost use Rattle.first_forms.specs.declared.token.Token.{Token};
ghost use Rattle.first_forms.specs.Modules.{IsClosed, Spells};
ghost use Rattle.first_forms.specs.Faults.{IsFault};
ghost use Rattle.std.specs.List.{list_all};
ghost use Rattle.std.specs.Str.{bytes_eq};
ghost use Rattle.first_forms.specs.Names.{is_one_of};
ghost use Rattle.first_forms.specs.WellFormed.{is_text_unit, max_integer};
ghost use Rattle.first_forms.specs.Reading.{after, term_of, first_term, next_term, term_step, new_call, call_open, argument_step, first_argument, with_argument, with_declaration, with_call, call_end, after_declaration, after_argument, sum_end, after_term, initializer_step, declaration_equals, declaration_name, can_declare, item_name, item_step, start_step, is_import, import_step, import_open, import_name, import_next, import_from, import_host, import_end, step, start, import_items, with_term, module_of, ReadsTo, StopsWith};

use crate::lexer::{MAX_INTEGER, is_text_unit};
use crate::names::{NameSet, is_bindable};
use crate::token::{Token, TokenKind};
use first_trees::{Call, DeclarationKind, Expression, Item, Module, Sum, Term};
use shared_text::{Name, Units};
use sqlite_items::Items;
use std::alloc::{AllocError, Global};

/// Why no module is read.
#[derive(Clone, Copy, Debug, PartialEq, Eq)]
pub enum ReadFault {
    /// No module that the program reads today goes on with the token at this offset after those before it.
    NotBuilt { at: u32 },
    OutOfMemory,
}

impl From<AllocError> for ReadFault {
    ghost use Rattle.first_forms.specs.declared.reader.ReadFault.TheVariants.{OutOfMemory};

    ghost from_gives = { λ _ e. e ≡ OutOfMemory };

    fn from(_e: AllocError) -> ReadFault {
        ReadFault::OutOfMemory
    }
}

/// Reads the tokens of a whole text as a module, where the program has these hosts.
pub fn read_module(alloc: Global, tokens: &[Token], hosts: &[Name]) -> Result<Module, ReadFault>
    requires { IsClosed tokens.now }
    // What is read is spelled so.
    ensures spelled { IfOk result (λ m. Spells hosts.now tokens.now m) }
    // A fault stands at the first token with which no module goes on.
    ensures fault { IfErr result (λ e. IsFault hosts.now tokens.now e) }
    // What is spelled is read, and in no other way.
    ensures complete { (m : Module) → Spells hosts.now tokens.now m
        → MatchResult result (λ n. n ≡ m) (λ e. e ≡ ReadFault.OutOfMemory) }
{
    let reader = Reader::after_all(alloc, tokens, hosts)?;
    Ok(reader.into_module(alloc)?)
}

/// No tokens spell two modules.
pub fn one_module()
    ensures { (hosts : List (List ℕ)) (tokens : List Token) (m n : Module) → Spells hosts tokens m → Spells hosts tokens n → m ≡ n }
{}

/// What is read of a module so far.
#[derive(Drop)]
struct Reader {
    /// The names that may be imported.
    hosts: NameSet,
    imported: NameSet,
    declared: NameSet,
    /// The items after the import.
    items: Items<Item>,
}

/// A declaration up to its name.
#[derive(Drop)]
struct Binding {
    kind: DeclarationKind,
    name: Name,
}

/// What a call is a part of.
#[derive(Drop)]
enum CallOwner {
    Statement,
    Declaration(Binding),
}

/// A call, up to the arguments that are read.
#[derive(Drop)]
struct OpenCall {
    owner: CallOwner,
    call: Call,
}

/// What a sum is a part of.
#[derive(Drop)]
enum SumOwner {
    Declaration(Binding),
    Argument(OpenCall),
}

/// A sum, up to the terms that are read.
#[derive(Drop)]
struct OpenSum {
    owner: SumOwner,
    sum: Sum,
}

/// Where in a module the reader stands, by what it read last.
#[derive(Drop)]
enum State {
    Start,
    /// `import`
    ImportOpen,
    /// the `{` of an import, or a `,` behind a name of it
    ImportName,
    /// a name of an import
    ImportNext,
    /// the `}` of an import
    ImportFrom,
    /// `from`
    ImportHost,
    /// `"host"`
    ImportEnd,
    /// an item
    Item,
    /// `let` or `const`
    DeclarationName(DeclarationKind),
    /// a declared name
    DeclarationEquals(Binding),
    /// the `=` of a declaration
    Initializer(Binding),
    /// a callee
    CallOpen(OpenCall),
    /// the `(` of a call
    FirstArgument(OpenCall),
    /// a `,` of a call
    Argument(OpenCall),
    /// the `)` of a call
    CallEnd(OpenCall),
    /// a term
    AfterTerm(OpenSum),
    /// a `+`
    Term(OpenSum),
    /// the end
    Done,
}

impl Reader {
    fn new(alloc: Global, hosts: &[Name]) -> Result<Reader, AllocError>
        ensures { IfOk result (λ r. r ≡ start hosts.now) }
    {
        Ok(Reader {
            hosts: NameSet::of_hosts(alloc, hosts)?,
            imported: NameSet::new(alloc),
            declared: NameSet::new(alloc),
            items: Items::new(alloc),
        })
    }

    /// The reader after all the tokens.
    fn after_all(alloc: Global, tokens: &[Token], hosts: &[Name]) -> Result<Reader, ReadFault>
        ensures read { IfOk result (λ r. ReadsTo hosts.now tokens.now r) }
        ensures fault { IfErr result (λ e. IsFault hosts.now tokens.now e) }
    {
        let mut reader = Reader::new(alloc, hosts)?;
        let mut state = State::Start;
        for token in tokens {
            state = reader.next_state(alloc, state, token)?;
        }
        Ok(reader)
    }

    /// The state after a token, or that no module goes on with it.
    fn next_state(&mut self, alloc: Global, state: State, token: &Token) -> Result<State, ReadFault>
        ensures read { IfOk result (λ next. step self.old state token.now ≡ Some (self.new, next)) }
        ensures fault { IfErr result (λ e. StopsWith (step self.old state token.now) token.now.at e) }
    {
        self.step(alloc, state, token)?
            .ok_or(ReadFault::NotBuilt { at: token.at })
    }

    /// Reads a token: the state after it, or nothing where no module goes on with it.
    #[tactic(auto, unfolding(crate::specs::Reading::step))]
    fn step(
        &mut self,
        alloc: Global,
        state: State,
        token: &Token,
    ) -> Result<Option<State>, AllocError>
        ensures { IfOk result (λ next. after self.new next ≡ step self.old state token.now) }
    {
        match state {
            State::Start => self.start_step(alloc, token),
            State::ImportOpen => Ok(import_open(&token.kind)),
            State::ImportName => self.import_name(alloc, &token.kind),
            State::ImportNext => Ok(self.import_next(&token.kind)),
            State::ImportFrom => Ok(import_from(&token.kind)),
            State::ImportHost => Ok(import_host(&token.kind)),
            State::ImportEnd => Ok(import_end(&token.kind)),
            State::Item => self.item_step(alloc, token),
            State::DeclarationName(word) => self.declaration_name(alloc, word, &token.kind),
            State::DeclarationEquals(binding) => Ok(declaration_equals(binding, &token.kind)),
            State::Initializer(binding) => self.initializer_step(alloc, binding, token),
            State::CallOpen(call) => Ok(call_open(call, &token.kind)),
            State::FirstArgument(call) => self.first_argument(alloc, call, token),
            State::Argument(call) => self.argument_step(alloc, call, token),
            State::CallEnd(call) => self.call_end(alloc, call, &token.kind),
            State::AfterTerm(sum) => self.after_term(alloc, sum, &token.kind),
            State::Term(sum) => self.term_step(alloc, sum, token),
            State::Done => Ok(None),
        }
    }

    /// What is read, as a module.
    fn into_module(self, alloc: Global) -> Result<Module, AllocError>
        ensures { IfOk result (λ m. m ≡ module_of self) }
    {
        let Reader {
            hosts: _,
            imported,
            declared: _,
            items: rest,
        } = self;
        let mut items = import_items(alloc, &imported)?;
        items.append(rest)?;
        Ok(Module { items })
    }

    fn start_step(&self, alloc: Global, token: &Token) -> Result<Option<State>, AllocError>
        ensures { IfOk result (λ next. next ≡ start_step self.now token.now) }
    {
        if is_import(&token.kind) {
            Ok(self.import_step())
        } else {
            self.item_step(alloc, token)
        }
    }

    fn import_step(&self) -> Option<State>
        ensures { result ≡ import_step self.now }
    {
        if self.hosts.len() == 0 {
            return None;
        }
        Some(State::ImportOpen)
    }

    /// A name of the import.
    #[tactic(auto, unfolding(crate::specs::Reading::import_name))]
    fn import_name(&mut self, alloc: Global, kind: &TokenKind) -> Result<Option<State>, AllocError>
        ensures { IfOk result (λ next. after self.new next ≡ import_name self.old kind.now) }
    {
        let TokenKind::Name(name) = kind else {
            return Ok(None);
        };
        let name = name.bytes();
        if !self.hosts.contains(name) || self.imported.contains(name) {
            return Ok(None);
        }
        self.imported.insert(alloc, name)?;
        Ok(Some(State::ImportNext))
    }

    #[tactic(auto, unfolding(crate::specs::Reading::import_next))]
    fn import_next(&self, kind: &TokenKind) -> Option<State>
        ensures { result ≡ import_next self.now kind.now }
    {
        match kind {
            TokenKind::Comma if self.imported.len() < self.hosts.len() => Some(State::ImportName),
            TokenKind::RightBrace => Some(State::ImportFrom),
            _ => None,
        }
    }

    #[tactic(auto, unfolding(crate::specs::Reading::item_at))]
    fn item_step(&self, alloc: Global, token: &Token) -> Result<Option<State>, AllocError>
        ensures { IfOk result (λ next. next ≡ item_step self.now token.now) }
    {
        match &token.kind {
            TokenKind::Name(name) => self.item_name(alloc, token.at, name),
            TokenKind::End => Ok(Some(State::Done)),
            _ => Ok(None),
        }
    }

    #[tactic(auto, unfolding(crate::specs::Reading::item_name))]
    fn item_name(&self, alloc: Global, at: u32, name: &Name) -> Result<Option<State>, AllocError>
        ensures { IfOk result (λ next. next ≡ item_name self.now at name.now) }
    {
        if self.imported.contains(name.bytes()) {
            return Ok(Some(new_call(alloc, CallOwner::Statement, at, name)?));
        }
        if name.is(b"let") {
            return Ok(Some(State::DeclarationName(DeclarationKind::Let)));
        }
        if name.is(b"const") {
            return Ok(Some(State::DeclarationName(DeclarationKind::Const)));
        }
        Ok(None)
    }

    /// A declared name.
    #[tactic(auto, unfolding(crate::specs::Reading::declaration_name))]
    fn declaration_name(
        &self,
        alloc: Global,
        word: DeclarationKind,
        kind: &TokenKind,
    ) -> Result<Option<State>, AllocError>
        ensures { IfOk result (λ next. next ≡ declaration_name self.now word kind.now) }
    {
        let TokenKind::Name(name) = kind else {
            return Ok(None);
        };
        if !self.can_declare(name.bytes()) {
            return Ok(None);
        }
        Ok(Some(State::DeclarationEquals(Binding {
            kind: word,
            name: name.copy(alloc)?,
        })))
    }

    fn can_declare(&self, name: &[u8]) -> bool
        ensures { result ≡ can_declare self.now name.now }
    {
        is_bindable(name) && !self.imported.contains(name) && !self.declared.contains(name)
    }

    /// The first token behind the `=` of a declaration.
    #[tactic(auto, unfolding(crate::specs::Reading::initializer_at))]
    fn initializer_step(
        &self,
        alloc: Global,
        binding: Binding,
        token: &Token,
    ) -> Result<Option<State>, AllocError>
        ensures { IfOk result (λ next. next ≡ initializer_step self.now binding token.now) }
    {
        match &token.kind {
            TokenKind::Name(name) if self.imported.contains(name.bytes()) => {
                let owner = CallOwner::Declaration(binding);
                Ok(Some(new_call(alloc, owner, token.at, name)?))
            }
            _ => self.first_term(alloc, SumOwner::Declaration(binding), token),
        }
    }

    /// The first term of a sum.
    fn first_term(
        &self,
        alloc: Global,
        owner: SumOwner,
        token: &Token,
    ) -> Result<Option<State>, AllocError>
        ensures { IfOk result (λ next. next ≡ first_term owner token.now.at (term_of self.now token.now)) }
    {
        let Some(first) = self.term_of(alloc, token)? else {
            return Ok(None);
        };
        let sum = Sum {
            at: token.at,
            first,
            rest: Items::new(alloc),
        };
        Ok(Some(State::AfterTerm(OpenSum { owner, sum })))
    }

    /// The token as a term, where it is one.
    #[tactic(auto, unfolding(crate::specs::Reading::term_at))]
    fn term_of(&self, alloc: Global, token: &Token) -> Result<Option<Term>, AllocError>
        ensures { IfOk result (λ x. x ≡ term_of self.now token.now) }
    {
        let at = token.at;
        match &token.kind {
            TokenKind::Integer(value) => Ok(integer_term(at, *value)),
            TokenKind::Text(units) => text_term(alloc, at, units),
            TokenKind::Name(name) => self.name_term(alloc, at, name),
            _ => Ok(None),
        }
    }

    fn name_term(&self, alloc: Global, at: u32, name: &Name) -> Result<Option<Term>, AllocError>
        ensures { IfOk result (λ x. x ≡ (if is_one_of name.now self.now.declared then Some (Term.Name at name.now) else None)) }
    {
        if !self.declared.contains(name.bytes()) {
            return Ok(None);
        }
        let name = name.copy(alloc)?;
        Ok(Some(Term::Name { at, name }))
    }

    /// A term behind a `+`.
    #[tactic(auto, unfolding(crate::specs::Reading::term_step))]
    fn term_step(
        &self,
        alloc: Global,
        so_far: OpenSum,
        token: &Token,
    ) -> Result<Option<State>, AllocError>
        ensures { IfOk result (λ next. next ≡ term_step self.now so_far token.now) }
    {
        match self.term_of(alloc, token)? {
            Some(term) => Ok(Some(State::AfterTerm(with_term(so_far, term)?))),
            None => Ok(None),
        }
    }

    /// A term behind a `,`.
    #[tactic(auto, unfolding(crate::specs::Reading::argument_step))]
    fn argument_step(
        &self,
        alloc: Global,
        so_far: OpenCall,
        token: &Token,
    ) -> Result<Option<State>, AllocError>
        ensures { IfOk result (λ next. next ≡ argument_step self.now so_far token.now) }
    {
        self.first_term(alloc, SumOwner::Argument(so_far), token)
    }

    /// A term or a `)` behind a `(`.
    #[tactic(auto, unfolding(crate::specs::Reading::first_argument))]
    fn first_argument(
        &self,
        alloc: Global,
        so_far: OpenCall,
        token: &Token,
    ) -> Result<Option<State>, AllocError>
        ensures { IfOk result (λ next. next ≡ first_argument self.now so_far token.now) }
    {
        match &token.kind {
            TokenKind::RightParen => Ok(Some(State::CallEnd(so_far))),
            _ => self.argument_step(alloc, so_far, token),
        }
    }

    /// A `+`, or what ends a sum.
    #[tactic(auto, unfolding(crate::specs::Reading::after_term))]
    fn after_term(
        &mut self,
        alloc: Global,
        so_far: OpenSum,
        kind: &TokenKind,
    ) -> Result<Option<State>, AllocError>
        ensures { IfOk result (λ next. after self.new next ≡ after_term self.old so_far kind.now) }
    {
        match kind {
            TokenKind::Plus => Ok(Some(State::Term(so_far))),
            _ => self.sum_end(alloc, so_far, kind),
        }
    }

    fn sum_end(
        &mut self,
        alloc: Global,
        so_far: OpenSum,
        kind: &TokenKind,
    ) -> Result<Option<State>, AllocError>
        ensures { IfOk result (λ next. after self.new next ≡ sum_end self.old so_far.owner so_far.sum kind.now) }
    {
        let OpenSum { owner, sum } = so_far;
        match owner {
            SumOwner::Declaration(binding) => self.after_declaration(alloc, binding, sum, kind),
            SumOwner::Argument(call) => after_argument(call, sum, kind),
        }
    }

    #[tactic(auto, unfolding(crate::specs::Reading::after_declaration))]
    fn after_declaration(
        &mut self,
        alloc: Global,
        binding: Binding,
        sum: Sum,
        kind: &TokenKind,
    ) -> Result<Option<State>, AllocError>
        ensures { IfOk result (λ next. after self.new next ≡ after_declaration self.old binding sum kind.now) }
    {
        let TokenKind::Semicolon = kind else {
            return Ok(None);
        };
        self.declare(alloc, binding, Expression::Sum(sum))?;
        Ok(Some(State::Item))
    }

    #[tactic(auto, unfolding(crate::specs::Reading::call_end))]
    fn call_end(
        &mut self,
        alloc: Global,
        so_far: OpenCall,
        kind: &TokenKind,
    ) -> Result<Option<State>, AllocError>
        ensures { IfOk result (λ next. after self.new next ≡ call_end self.old so_far kind.now) }
    {
        let TokenKind::Semicolon = kind else {
            return Ok(None);
        };
        self.close_call(alloc, so_far)?;
        Ok(Some(State::Item))
    }

    fn close_call(&mut self, alloc: Global, so_far: OpenCall) -> Result<(), AllocError>
        ensures { OnOk result (self.new ≡ with_call self.old so_far) }
    {
        let OpenCall { owner, call } = so_far;
        match owner {
            CallOwner::Statement => self.items.push(Item::Expression(call)),
            CallOwner::Declaration(binding) => self.declare(alloc, binding, Expression::Call(call)),
        }
    }

    fn declare(
        &mut self,
        alloc: Global,
        binding: Binding,
        init: Expression,
    ) -> Result<(), AllocError>
        ensures { OnOk result (self.new ≡ with_declaration self.old binding init) }
    {
        let Binding { kind, name } = binding;
        self.declared.insert(alloc, name.bytes())?;
        self.items.push(Item::Declaration { kind, name, init })
    }
}

fn import_items(alloc: Global, imported: &NameSet) -> Result<Items<Item>, AllocError>
    ensures { IfOk result (λ items. items ≡ import_items imported.now) }
{
    let mut items = Items::new(alloc);
    if imported.len() > 0 {
        let names = imported.to_names(alloc)?;
        items.push(Item::Import { names })?;
    }
    Ok(items)
}

fn is_import(kind: &TokenKind) -> bool
    ensures { result ≡ is_import kind.now }
{
    match kind {
        TokenKind::Name(name) => name.is(b"import"),
        _ => false,
    }
}

#[tactic(auto, unfolding(crate::specs::Reading::import_open))]
fn import_open(kind: &TokenKind) -> Option<State>
    ensures { result ≡ import_open kind.now }
{
    match kind {
        TokenKind::LeftBrace => Some(State::ImportName),
        _ => None,
    }
}

#[tactic(auto, unfolding(crate::specs::Reading::import_from))]
fn import_from(kind: &TokenKind) -> Option<State>
    ensures { result ≡ import_from kind.now }
{
    match kind {
        TokenKind::Name(name) if name.is(b"from") => Some(State::ImportHost),
        _ => None,
    }
}

#[tactic(auto, unfolding(crate::specs::Reading::import_host))]
fn import_host(kind: &TokenKind) -> Option<State>
    ensures { result ≡ import_host kind.now }
{
    match kind {
        TokenKind::Text(units) if is_host(units.units()) => Some(State::ImportEnd),
        _ => None,
    }
}

fn is_host(units: &[u16]) -> bool
    ensures { result ≡ bytes_eq units.now (codes "host") }
{
    units == [104, 111, 115, 116].as_slice()
}

#[tactic(auto, unfolding(crate::specs::Reading::import_end))]
fn import_end(kind: &TokenKind) -> Option<State>
    ensures { result ≡ import_end kind.now }
{
    match kind {
        TokenKind::Semicolon => Some(State::Item),
        _ => None,
    }
}

#[tactic(auto, unfolding(crate::specs::Reading::declaration_equals))]
fn declaration_equals(binding: Binding, kind: &TokenKind) -> Option<State>
    ensures { result ≡ declaration_equals binding kind.now }
{
    match kind {
        TokenKind::Equals => Some(State::Initializer(binding)),
        _ => None,
    }
}

#[tactic(auto, unfolding(crate::specs::Reading::call_open))]
fn call_open(so_far: OpenCall, kind: &TokenKind) -> Option<State>
    ensures { result ≡ call_open so_far kind.now }
{
    match kind {
        TokenKind::LeftParen => Some(State::FirstArgument(so_far)),
        _ => None,
    }
}

fn new_call(alloc: Global, owner: CallOwner, at: u32, name: &Name) -> Result<State, AllocError>
    ensures { IfOk result (λ s. s ≡ new_call owner at name.now) }
{
    let call = Call {
        at,
        callee: name.copy(alloc)?,
        args: Items::new(alloc),
    };
    Ok(State::CallOpen(OpenCall { owner, call }))
}

fn integer_term(at: u32, value: u64) -> Option<Term>
    ensures { result ≡ (if nat_le value max_integer then Some (Term.Integer at value) else None) }
{
    if value <= MAX_INTEGER {
        Some(Term::Integer { at, value })
    } else {
        None
    }
}

fn text_term(alloc: Global, at: u32, units: &Units) -> Result<Option<Term>, AllocError>
    ensures { IfOk result (λ x. x ≡ (if list_all is_text_unit units.now then Some (Term.Text at units.now) else None)) }
{
    if !are_text_units(units.units()) {
        return Ok(None);
    }
    let units = units.copy(alloc)?;
    Ok(Some(Term::Text { at, units }))
}

fn are_text_units(units: &[u16]) -> bool
    ensures { result ≡ list_all is_text_unit units.now }
{
    units.iter().all(|u| is_text_unit(*u))
}

fn with_term(so_far: OpenSum, term: Term) -> Result<OpenSum, AllocError>
    ensures { IfOk result (λ o. o ≡ record so_far { sum = with_term so_far.sum term }) }
{
    let OpenSum { owner, mut sum } = so_far;
    sum.rest.push(term)?;
    Ok(OpenSum { owner, sum })
}

/// `,` or `)` behind an argument.
#[tactic(auto, unfolding(crate::specs::Reading::after_argument))]
fn after_argument(so_far: OpenCall, sum: Sum, kind: &TokenKind) -> Result<Option<State>, AllocError>
    ensures { IfOk result (λ next. next ≡ after_argument so_far sum kind.now) }
{
    match kind {
        TokenKind::Comma => Ok(Some(State::Argument(with_argument(so_far, sum)?))),
        TokenKind::RightParen => Ok(Some(State::CallEnd(with_argument(so_far, sum)?))),
        _ => Ok(None),
    }
}

fn with_argument(so_far: OpenCall, sum: Sum) -> Result<OpenCall, AllocError>
    ensures { IfOk result (λ c. c ≡ with_argument so_far sum) }
{
    let OpenCall { owner, mut call } = so_far;
    call.args.push(sum)?;
    Ok(OpenCall { owner, call })
}
