//! Copies of expressions are written as what they are copies of.

use krml_reader::{read_file, write_file};
use krml_rename::{ast_clone, clone_ty};
use krml_syntax::{Def, SourceFile};
use krml_trace::{NoMemory, Seq};
use std::alloc::Global;
use std::test::Fail;

/// Functions without parameters whose bodies have each form that a text spells.
const FUNCTIONS: &[u8] =
    b"(fun f () () unit (if (lt u32 x (u32 10)) (do (let x su8 (add su8 x (su8 1))) (call g (u8 (buf bool)) x) unit) (get y x)))
(fun f () () (p u8) (frame (do (write x y (not z)) (while true unit) (for i a b (slice x i j)) (alloc (p 'a) 16 (u8 1)))))
(fun f () () bool (match (con some ('a) (tab t x)) (_ x) ((con some y (make p true (u8 7))) false)))
(fun f () () u64 (make p (u8) (shr u8 x (cast u64 u32 y)) (shl u8 a (hide u8 b)) (read b i) (gtemask su8 x y)))
";

/// The functions of a file, each without type variables and parameters, and with a copy of its body.
fn copied(alloc: Global, file: &SourceFile) -> Result<SourceFile, NoMemory> {
    let mut defs = Seq::new(alloc);
    for def in file.defs.as_slice() {
        if let Def::Fun {
            name,
            result,
            body,
            ..
        } = def
        {
            let body = ast_clone(alloc, body)?;
            let result = clone_ty(alloc, result)?;
            defs.push(Def::Fun {
                name: name.copy(alloc)?,
                vars: Seq::new(alloc),
                params: Seq::new(alloc),
                result,
                body,
            })?;
        }
    }
    Ok(SourceFile { defs })
}

/// The text of copies of the functions that a text spells; empty where it spells none.
fn rewritten(alloc: Global, text: &[u8]) -> Result<Vec<u8>, NoMemory> {
    match read_file(alloc, text) {
        Ok(file) => write_file(alloc, &copied(alloc, &file)?),
        Err(_) => Ok(Vec::new(alloc)),
    }
}

#[test]
fn copies_each_form(rt: HostRuntime) -> Result<(), Fail> {
    let text = rewritten(rt.alloc(), FUNCTIONS)?;
    assert!(rt; text.as_slice() == FUNCTIONS);
    Ok(())
}
