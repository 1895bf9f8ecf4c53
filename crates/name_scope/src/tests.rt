use crate::{name_refusal, scope};
use mono_list::Shared;
use mono_syntax::{
    Ann, AnnForm, ClassDef, Expr, ExprKind, FieldDef, FuncDef, Item, LoadFault, Name, Place,
    Reason, Refusal, Scoped, Script, Stmt, StmtKind, Word,
};
use sqlite_items::Items;
use std::alloc::{AllocError, Global};
use std::test::Fail;

fn place(line: u32, column: u32) -> Place {
    Place { line, column }
}

fn word(alloc: Global, text: &[u8], line: u32, column: u32) -> Result<Word, AllocError> {
    let text = Name::new(alloc, text)?;
    let place = place(line, column);
    Ok(Word { text, place })
}

fn local(alloc: Global, text: &[u8], line: u32, column: u32) -> Result<Expr, AllocError> {
    let word = word(alloc, text, line, column)?;
    Ok(Expr {
        kind: ExprKind::Local(word),
    })
}

fn int(line: u32, column: u32) -> Ann {
    Ann {
        place: place(line, column),
        what: AnnForm::Int,
    }
}

/// `x: int = 1` where it is annotated, and else `x = 1`.
fn assign(alloc: Global, text: &[u8], line: u32, annotated: bool) -> Result<Item, AllocError> {
    let word = word(alloc, text, line, 1)?;
    let ann = if annotated { Some(int(line, 4)) } else { None };
    let kind = ExprKind::Int(place(line, 10), 1);
    Ok(Item::Stmt(Stmt {
        kind: StmtKind::Assign(word, ann, Expr { kind }),
    }))
}

/// `print(x)`
fn print(alloc: Global, value: Expr, line: u32) -> Result<Item, AllocError> {
    let mut values = Items::new(alloc);
    values.push(value)?;
    Ok(Item::Stmt(Stmt {
        kind: StmtKind::Print(place(line, 6), values),
    }))
}

/// `class P:` with a field `x: int`, as if they stood in one line.
fn class(alloc: Global, text: &[u8], line: u32) -> Result<Item, AllocError> {
    let mut fields = Items::new(alloc);
    let name = word(alloc, b"x", line, 10)?;
    let ann = int(line, 13);
    fields.push(FieldDef { name, ann })?;
    let name = word(alloc, text, line, 7)?;
    Ok(Item::Class(ClassDef { name, fields }))
}

/// `def f():` with an empty body.
fn function(alloc: Global, text: &[u8], line: u32) -> Result<Item, AllocError> {
    let name = word(alloc, text, line, 5)?;
    Ok(Item::Def(FuncDef {
        name,
        params: Items::new(alloc),
        result: None,
        body: Items::new(alloc),
    }))
}

/// `t = start(f)`
fn start(alloc: Global, text: &[u8], line: u32) -> Result<Item, AllocError> {
    let name = word(alloc, text, line, 1)?;
    let callee = local(alloc, b"f", line, 11)?;
    Ok(Item::Stmt(Stmt {
        kind: StmtKind::Start(name, place(line, 10), callee, Items::new(alloc)),
    }))
}

/// `print(join(t))`
fn join(alloc: Global, text: &[u8], line: u32) -> Result<Item, AllocError> {
    let word = word(alloc, text, line, 12)?;
    let kind = ExprKind::Join(place(line, 7), word);
    print(alloc, Expr { kind }, line)
}

fn item(alloc: Global, kind: u8, text: &[u8], line: u32) -> Result<Item, AllocError> {
    match kind {
        b'i' => assign(alloc, text, line, true),
        b'p' => print(alloc, local(alloc, text, line, 7)?, line),
        b'c' => class(alloc, text, line),
        b'd' => function(alloc, text, line),
        b's' => start(alloc, text, line),
        b'j' => join(alloc, text, line),
        _ => assign(alloc, text, line, false),
    }
}

/// The script with an item for each pair of letters, a kind and a name, in lines 1, 3 and so on.
fn build(alloc: Global, letters: &[u8]) -> Result<Script, AllocError> {
    let mut items = Items::new(alloc);
    let mut line = 1;
    for pair in letters.chunks(2) {
        if let [kind, name] = pair {
            items.push(item(alloc, *kind, &[*name], line)?)?;
            line = if line < 100 { line + 2 } else { line };
        }
    }
    let items = Shared::new(alloc, items)?;
    Ok(Script { items })
}

#[test]
fn first_faults(rt: HostRuntime) -> Result<(), Fail> {
    let alloc = rt.alloc();
    let rows = [
        ("px", Some((1, 7, Reason::UnknownName))),
        ("axpx", None),
        ("pyaxix", Some((1, 7, Reason::UnknownName))),
        ("axixpy", Some((3, 1, Reason::Twice))),
        ("cPcP", Some((3, 7, Reason::Twice))),
        ("cPpP", Some((3, 7, Reason::Misused))),
        ("afdf", Some((3, 5, Reason::Twice))),
        ("dfstjt", None),
        ("dfjtst", Some((3, 12, Reason::Misused))),
        ("dfstpt", Some((5, 7, Reason::Misused))),
        ("dfstat", Some((5, 1, Reason::Twice))),
    ];
    for (letters, wanted) in rows {
        let script = build(alloc, letters.as_bytes())?;
        let wanted = match wanted {
            Some((line, column, reason)) => Some(Refusal {
                place: place(line, column),
                reason,
            }),
            None => None,
        };
        let found = name_refusal(alloc, &script)?;
        assert!(rt; found == wanted);
    }
    Ok(())
}

/// How many classes, functions and blocks have types.
fn counts(scoped: &Scoped) -> (usize, usize, usize) {
    let blocks = scoped.blocks.len();
    (scoped.classes.len(), scoped.functions.len(), blocks)
}

#[test]
fn scopes(rt: HostRuntime) -> Result<(), Fail> {
    let alloc = rt.alloc();
    let script = build(alloc, b"cPdfixaxst")?;
    let found = match scope(alloc, &script) {
        Ok(scoped) => Some(counts(&scoped)),
        Err(_) => None,
    };
    assert!(rt; found == Some((1, 1, 2)));
    let wrong = build(alloc, b"cPpP")?;
    let refused = match scope(alloc, &wrong) {
        Err(LoadFault::Refused(refusal)) => Some(refusal),
        _ => None,
    };
    let wanted = Refusal {
        place: place(3, 7),
        reason: Reason::Misused,
    };
    assert!(rt; refused == Some(wanted));
    Ok(())
}
