//! The private variables that parameters become.

ghost use Rattle.std.specs.Prelude.{◌≡◌, ◌<◌, ◌++◌, IfOk};
ghost use Rattle.ts_proc_renaming.specs.Renaming.{parameter_name, parameter_decls};

use arrayvec::ArrayString;
use itoa::Buffer;
use mate_num::{NAME_MAX, Name, NoMemory};
use std::alloc::Global;
use ts_trees::{Decl, DeclKind, Decls, Word};

/// The name of the variable that the parameter of this number becomes: `_` and the number.
pub fn parameter_name(number: u32) -> Name
    ensures { result ≡ parameter_name number }
{
    let mut digits = Buffer::new();
    let mut text = ArrayString::<NAME_MAX>::new();
    text.push_str("_");
    text.push_str(digits.format(number));
    let Some(name) = Name::new(text.as_str()) else {
        unreachable!()
    };
    name
}

/// The declarations, and after them the first `count` parameters as private variables.
pub fn declarations(alloc: Global, decls: &[Decl], count: u32) -> Result<Decls, NoMemory>
    ensures { IfOk result (λ all. all ≡ decls.now ++ parameter_decls 0 count) }
{
    let mut all = Decls::new(alloc);
    for decl in decls {
        all.push(copy_of(decl))?;
    }
    for number in 0..count {
        let name = parameter_name(number);
        all.push(Decl {
            kind: DeclKind::Private,
            word: Word { name, place: 0 },
            first: number == 0,
        })?;
    }
    Ok(all)
}

fn copy_of(decl: &Decl) -> Decl
    ensures { result ≡ decl.now }
{
    Decl {
        kind: decl.kind,
        word: Word {
            name: decl.word.name.copy(),
            place: decl.word.place,
        },
        first: decl.first,
    }
}
