//! The names of a script, and what they name.

ghost use Rattle.std.specs.Prelude.{◌≡◌, ◌<◌, ◌≤◌, length, position, bytes_eq, IfSome};
ghost use Rattle.mate_num.specs.declared.bounds.TheConstants.{FUNCTIONS_MAX, SHARED_MAX};
ghost use Rattle.ts_checker.specs.Names.{listed, symbol_of, function_from};

use crate::fault::CheckFault;
use arrayvec::ArrayVec;
use mate_num::{BUFFERS_MAX, BufId, FunId, Name, PRIVATES, SHARED_MAX, VarId};
use ts_checked::CVar;
use ts_trees::{Decl, DeclKind, Word};
use vm_shape::{Description, FunKind, Function};

/// What a declared name names.
#[derive(Clone, Copy)]
pub enum Symbol {
    Variable(CVar),
    Buffer(BufId),
}

impl Symbol {
    ghost use Rattle.std.specs.Prelude.{◌≡◌};
    ghost use Rattle.ts_checker.specs.Names.{is_private_symbol};

    fn is_private(self) -> bool
        ensures { result ≡ is_private_symbol self }
    {
        match self {
            Symbol::Variable(CVar::Shared(_)) => false,
            Symbol::Variable(CVar::Private(_)) => true,
            Symbol::Buffer(_) => false,
        }
    }
}

// What is in the free places of a list of names.
impl Default for Symbol {
    fn default() -> Symbol {
        Symbol::Variable(CVar::Private(0))
    }
}

/// A declared name, and what it names.
#[derive(Default, Drop)]
pub struct Entry {
    pub name: Name,
    pub symbol: Symbol,
}

/// The greatest number of names of a script: no name is there twice, so the machine's shared variables and buffers and
/// the private variables fit.
const NAMES_MAX: usize = SHARED_MAX + BUFFERS_MAX + PRIVATES;

/// The names of a script: its machine's, and those that it declared.
#[derive(Drop)]
pub struct Scope<'a> {
    desc: &'a Description,
    names: ArrayVec<Entry, NAMES_MAX>,
}

fn place_among(names: &[Name], name: &Name) -> Option<usize>
    ensures value { result ≡ position (bytes_eq name.now) names.now }
    ensures below { IfSome result (λ place. place < length names.now) }
{
    names.iter().position(|other| name == other)
}

fn place_in(names: &[Name], name: &Name) -> Result<u8, CheckFault>
    requires { length names.now ≤ SHARED_MAX }
    ensures { result ≡ listed names.now name.now }
{
    match place_among(names, name) {
        Some(place) => Ok(place as u8),
        None => Err(CheckFault::NotInVm { name: name.copy() }),
    }
}

fn symbol_among(entries: &[Entry], name: &Name) -> Option<Symbol>
    ensures { result ≡ symbol_of entries.now name.now }
{
    for entry in entries {
        if *name == entry.name {
            return Some(entry.symbol);
        }
    }
    None
}

fn function_among(functions: &[Function], name: &Name) -> Option<(FunId, FunKind)>
    requires { length functions.now ≤ FUNCTIONS_MAX }
    ensures { result ≡ function_from 0 functions.now name.now }
{
    for (index, function) in functions.iter().enumerate() {
        if *name == function.name {
            return Some((FunId(index as u8), function.kind));
        }
    }
    None
}

impl<'a> Scope<'a> {
    ghost use Rattle.std.specs.Prelude.{Ok, Err, MatchResult, OnOk};
    ghost use Rattle.ts_checker.specs.Room.{IsFit};
    ghost use Rattle.ts_checker.specs.Names.{names_before, private_count, made, declare, declare_all, found_symbol, variable, buffer};
    ghost use Rattle.ts_checker.specs.Names.{function, closes_for};
    ghost use Rattle.ts_checker.specs.Seen.{scope_names};

    /// The names that the declarations declare, from left to right, or the first refusal of them. It takes no memory.
    pub fn of(desc: &'a Description, decls: &[Decl]) -> Result<Scope<'a>, CheckFault>
        ensures { let names = declare_all (names_before desc.now) decls.now in
            MatchResult result (λ scope. names ≡ Ok (scope_names scope)) (λ fault. names ≡ Err fault) }
    {
        let mut scope = Scope {
            desc,
            names: ArrayVec::new(),
        };
        for decl in decls {
            scope.declare(decl)?;
        }
        Ok(scope)
    }

    // Adds a declared name, or refuses it.
    fn declare(&mut self, decl: &Decl) -> Result<(), CheckFault>
        requires { IsFit self.old.desc.now self.old.names.items }
        ensures value { let names = declare (scope_names self.old) decl.now in
            MatchResult result (λ _. names ≡ Ok (scope_names self.new)) (λ fault. names ≡ Err fault) }
        ensures fit { OnOk result (IsFit self.new.desc.now self.new.names.items) }
    {
        let name = &decl.word.name;
        if self.symbol(name).is_some() {
            return Err(CheckFault::Twice { name: name.copy() });
        }
        let symbol = self.made(decl.kind, name)?;
        let name = name.copy();
        self.names.push(Entry { name, symbol });
        Ok(())
    }

    // What a declaration makes of its name, or its refusal.
    fn made(&self, kind: DeclKind, name: &Name) -> Result<Symbol, CheckFault>
        ensures { result ≡ made (scope_names self.now) kind name.now }
    {
        match kind {
            DeclKind::Shared => {
                let place = place_in(self.desc.shared.as_slice(), name)?;
                Ok(Symbol::Variable(CVar::Shared(VarId(place))))
            }
            DeclKind::Private => {
                let number = self.privates();
                if number >= PRIVATES {
                    return Err(CheckFault::TooManyPrivates);
                }
                Ok(Symbol::Variable(CVar::Private(number as u8)))
            }
            DeclKind::Buffer => {
                let place = place_in(self.desc.buffers.as_slice(), name)?;
                Ok(Symbol::Buffer(BufId(place)))
            }
        }
    }

    // How many private variables are declared.
    fn privates(&self) -> usize
        ensures { result ≡ private_count self.now.names.items }
    {
        self.names
            .as_slice()
            .iter()
            .filter(|entry| entry.symbol.is_private())
            .count()
    }

    fn symbol(&self, name: &Name) -> Option<Symbol>
        ensures { result ≡ symbol_of self.now.names.items name.now }
    {
        symbol_among(self.names.as_slice(), name)
    }

    // What a name names that has to be declared.
    fn found(&self, word: &Word) -> Result<Symbol, CheckFault>
        ensures { result ≡ found_symbol (scope_names self.now) word.now }
    {
        match self.symbol(&word.name) {
            Some(symbol) => Ok(symbol),
            None => Err(CheckFault::Undeclared {
                name: word.name.copy(),
                place: word.place,
            }),
        }
    }

    /// The variable of a name; `Undeclared` if it isn't declared, `Kind` if it is a buffer's.
    pub fn variable(&self, word: &Word) -> Result<CVar, CheckFault>
        ensures { result ≡ variable (scope_names self.now) word.now }
    {
        match self.found(word)? {
            Symbol::Variable(variable) => Ok(variable),
            Symbol::Buffer(_) => Err(CheckFault::Kind { place: word.place }),
        }
    }

    /// The buffer of a name; `Undeclared` if it isn't declared, `Kind` if it is no buffer's.
    pub fn buffer(&self, word: &Word) -> Result<BufId, CheckFault>
        ensures { result ≡ buffer (scope_names self.now) word.now }
    {
        match self.found(word)? {
            Symbol::Variable(_) => Err(CheckFault::Kind { place: word.place }),
            Symbol::Buffer(buffer) => Ok(buffer),
        }
    }

    /// The function of a name; `NotInVm` if the machine has none.
    pub fn function(&self, word: &Word) -> Result<(FunId, FunKind), CheckFault>
        ensures { result ≡ function (scope_names self.now) word.now }
    {
        match function_among(self.desc.functions.as_slice(), &word.name) {
            Some(function) => Ok(function),
            None => Err(CheckFault::NotInVm {
                name: word.name.copy(),
            }),
        }
    }

    /// `Kind` if the name after `next` isn't that of its `for`.
    pub fn closes(&self, variable: &Word, next: &Word) -> Result<(), CheckFault>
        ensures { result ≡ closes_for (scope_names self.now) variable.now next.now }
    {
        self.found(next)?;
        if next.name == variable.name {
            Ok(())
        } else {
            Err(CheckFault::Kind { place: next.place })
        }
    }
}
