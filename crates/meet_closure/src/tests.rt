use crate::close;
use mono_list::Shared;
use mono_syntax::{Field, LoadFault, Name, Place, Reason, Refusal, Ty, TyKind};
use mono_tree::{copy_type, type_bytes};
use sqlite_items::Items;
use std::alloc::{AllocError, Global};
use std::mem;
use std::test::Fail;

/// The type that these steps make: `D i b s` are base types, `p` makes the last type a parameter, `f` makes a function of the
/// parameters with the last type as its result, `x y` make the last type a field of that name, and `o` makes an object of the fields.
fn built(alloc: Global, steps: &[u8]) -> Result<Ty, AllocError> {
    let mut kind = TyKind::Dyn;
    let mut params = Items::new(alloc);
    let mut members = Items::new(alloc);
    for step in steps {
        let last = Ty {
            kind: mem::replace(&mut kind, TyKind::Dyn),
        };
        match *step {
            b'i' => kind = TyKind::Int,
            b'b' => kind = TyKind::Bool,
            b's' => kind = TyKind::Str,
            b'p' => params.push(Shared::new(alloc, last)?)?,
            b'f' => kind = TyKind::Fun(
                mem::replace(&mut params, Items::new(alloc)),
                Shared::new(alloc, last)?,
            ),
            b'x' | b'y' => {
                let ty = Shared::new(alloc, last)?;
                let name = Name::new(alloc, &[*step])?;
                members.push(Field { name, ty })?;
            }
            b'o' => kind = TyKind::Obj(mem::replace(&mut members, Items::new(alloc))),
            _ => {}
        }
    }
    Ok(Ty { kind })
}

fn built_all(alloc: Global, words: &[&str]) -> Result<Vec<Ty>, AllocError> {
    let mut types = Vec::new(alloc);
    for word in words {
        types.push(built(alloc, word.as_bytes())?)?;
    }
    Ok(types)
}

fn texts(alloc: Global, types: &[Ty]) -> Result<Vec<u8>, AllocError> {
    let mut out = Vec::new(alloc);
    for ty in types {
        out.extend_from_slice(b"; ")?;
        let text = type_bytes(alloc, ty)?;
        out.extend_from_slice(text.as_slice())?;
    }
    Ok(out)
}

/// An object whose two fields have these types.
fn pair(alloc: Global, x: &Ty, y: &Ty) -> Result<Ty, AllocError> {
    let mut members = Items::new(alloc);
    for (name, ty) in [(b"x", x), (b"y", y)] {
        let name = Name::new(alloc, name)?;
        let ty = Shared::new(alloc, copy_type(alloc, ty)?)?;
        members.push(Field { name, ty })?;
    }
    Ok(Ty {
        kind: TyKind::Obj(members),
    })
}

#[test]
fn closed_lists(rt: HostRuntime) -> Result<(), Fail> {
    let alloc = rt.alloc();
    let rows: [(&[&str], &str); 5] = [
        (&[], ""),
        (&["Dxo", "ixo"], "; {x: Dyn}; {x: int}"),
        (
            &["ixDyo", "Dxsyo"],
            "; {x: int, y: Dyn}; {x: Dyn, y: str}; {x: int, y: str}",
        ),
        (
            &["ipDf", "Dpsf"],
            "; Callable[[int], Dyn]; Callable[[Dyn], str]; Callable[[int], str]",
        ),
        // The meet of two parts comes before that of their wholes.
        (
            &["Dpifxo", "bpDfxo"],
            "; Callable[[Dyn], int]; {x: Callable[[Dyn], int]}; Callable[[bool], Dyn]; {x: Callable[[bool], Dyn]}\
             ; Callable[[bool], int]; {x: Callable[[bool], int]}",
        ),
    ];
    for (words, wanted) in rows {
        let types = built_all(alloc, words)?;
        let text = match close(alloc, types.as_slice()) {
            Ok(list) => texts(alloc, list.as_slice())?,
            Err(_) => Vec::new(alloc),
        };
        assert!(rt;
            text.as_slice().strip_prefix(b"; Dyn; int; bool; str; None") == Some(wanted.as_bytes())
        );
    }
    Ok(())
}

// Two types of 769 nodes meet in one of 1,535.
#[test]
fn meets_that_are_too_large(rt: HostRuntime) -> Result<(), Fail> {
    let alloc = rt.alloc();
    let any = Ty { kind: TyKind::Dyn };
    let mut large = built(alloc, b"Dxo")?;
    for _ in 0..8 {
        large = pair(alloc, &large, &large)?;
    }
    let types = [pair(alloc, &large, &any)?, pair(alloc, &any, &large)?];
    let wanted = Refusal {
        place: Place { line: 1, column: 1 },
        reason: Reason::TypeTooLarge,
    };
    let fault = match close(alloc, &types) {
        Ok(_) => LoadFault::Memory,
        Err(fault) => fault,
    };
    assert!(rt; fault == LoadFault::Refused(wanted));
    Ok(())
}
