//! For each rule of the typing a text that keeps it, and one that breaks it.

use krml_reader::read_file;
use krml_types::{TypeRefusal, check_types};
use std::alloc::{AllocError, Global};
use std::test::Fail;

/// Rules of definitions: a text that keeps the rule, one that breaks it, and the number of the definition at fault.
const DEFINITIONS: &str =
    "An entry may stand before its function, and the first definition at fault is told.
(entry f) (fun f () () bool true)
(fun f () () bool true) (fun g () () bool unit) (fun f () () bool true)
1

Structs in a circle.
(fun f () () bool true) (struct a () (next u8)) (struct b () (next a))
(fun f () () bool true) (struct a () (next b)) (struct b () (next a))
1

Structs and sums have names of one kind.
(struct s () (x u8)) (sum r () (A))
(struct s () (x u8)) (sum s () (A))
1

Constructors of all sums are one kind.
(sum s () (A)) (sum r () (B))
(sum s () (A)) (sum r () (B) (A))
1

They differ in one sum, too.
(sum s () (A) (B))
(sum s () (A) (B) (A))
0

A constructor of a later sum of one name has the type of that name, so that the later sum alone is at fault.
(sum s () (A) (B)) (fun f () () s (con B ()))
(sum s () (A)) (fun f () () s (con B ())) (sum s () (B))
2

Tables.
(table t u8 1) (table s u8 1)
(table t u8 1) (table t u32 1)
1

Functions.
(fun f () () unit unit) (fun g () () unit unit)
(fun f () () unit unit) (fun f () () u8 (u8 1))
1

Entries.
(fun f () () unit unit) (fun g () () unit unit) (entry f) (entry g)
(fun f () () unit unit) (entry f) (entry f)
2

Each kind is by itself.
(struct f () (f u8)) (table f u8 1) (fun f () ((f u8)) u8 f) (entry f)
(struct f () (f u8)) (table f u8 1) (fun f () () u8 (tab f (u32 0))) (table f u8 2)
3

The first of two definitions is at fault by itself.
(struct s () (x u8)) (struct r () (y s))
(struct s () (x r)) (struct s () (x u8))
0

Type variables are distinct.
(struct s ('a 'b) (x 'a))
(struct s ('a 'a) (x 'a))
0

Those of a sum.
(sum s ('a 'b) (A 'a 'b))
(sum s ('a 'a) (A 'a))
0

Those of a function.
(fun f ('a 'b) () unit unit)
(fun f ('a 'a) () unit unit)
0

Fields are distinct.
(struct s () (x u8) (y u8))
(struct s () (x u8) (x u32))
0

Parameters are distinct.
(fun f () ((x u8) (y u8)) u8 x)
(fun f () ((x u8) (x u8)) u8 x)
0

A struct names earlier structs and sums.
(struct s () (x u8)) (struct r () (y s))
(struct r () (y s)) (struct s () (x u8))
0

It does not name itself.
(struct s () (x u8))
(struct s () (x s))
0

So does a sum.
(sum s () (A)) (sum r () (B s))
(sum r () (B s)) (sum s () (A))
0

It does not name itself.
(sum s () (A))
(sum s () (A) (B s))
0

A type has as many arguments as it has type variables.
(struct s ('a) (x 'a)) (struct r () (y (s u8)))
(struct s ('a) (x 'a)) (struct r () (y (s u8 u8)))
1

None where it has none.
(struct s () (x u8)) (struct r () (y s))
(struct s ('a) (x 'a)) (struct r () (y s))
1

A type variable is listed.
(struct s ('a) (x 'a))
(struct s ('a) (x 'b))
0

In a sum.
(sum s ('a) (A 'a))
(sum s ('a) (A 'b))
0

In a function.
(fun f ('a) ((x 'a)) 'a x)
(fun f ('a) ((x 'b)) unit unit)
0

A field has a value type.
(struct s () (x (buf u8)))
(struct s () (x unit))
0

The elements of a buffer hold no buffer.
(struct s () (x (buf u8)))
(struct s () (x (buf (buf u8))))
0

Not inside a struct, either.
(struct s () (x u8)) (struct r () (y (buf s)))
(struct s () (x (buf u8))) (struct r () (y (buf s)))
1

Nor in a struct inside a struct.
(struct s () (x u8)) (struct r () (y s)) (struct q () (z (buf r)))
(struct s () (x (buf u8))) (struct r () (y s)) (struct q () (z (buf r)))
2

The elements of a buffer are values.
(struct s () (x (buf bool)))
(struct s () (x (buf unit)))
0

The arguments of a constructor hold no buffer.
(sum s () (A u8))
(sum s () (A (buf u8)))
0

They are values.
(sum s () (A bool))
(sum s () (A unit))
0

A type argument holds no buffer.
(struct s ('a) (x 'a)) (struct r () (y (s u8)))
(struct s ('a) (x 'a)) (struct r () (y (s (buf u8))))
1

It is a type of values.
(struct s ('a) (x 'a)) (struct r () (y (s bool)))
(struct s ('a) (x 'a)) (struct r () (y (s unit)))
1

A function may name any struct of the file.
(fun f () ((x s)) unit unit) (struct s () (y u8))
(fun f () ((x s)) unit unit) (struct r () (y u8))
0

A function may be called before it is defined.
(fun f () () unit (call g ())) (fun g () () unit unit)
(fun f () () unit (call h ())) (fun g () () unit unit)
0

It may call itself.
(fun f () () unit (call f ()))
(fun f () () unit (call f (u8)))
0

A table may be read before it is defined.
(fun f () () u8 (tab t (u32 0))) (table t u8 1)
(fun f () () u8 (tab t (u32 0))) (table t u32 1)
0

A parameter has a value type.
(fun f () ((b (buf u8))) unit unit)
(fun f () ((b unit)) unit unit)
0

A result holds no buffer.
(fun f () ((b (buf u8))) u8 (read b (u32 0)))
(fun f () ((b (buf u8))) (buf u8) b)
0

Not inside a struct, either.
(struct s () (x u8)) (fun f () ((v s)) s v)
(struct s () (x (buf u8))) (fun f () ((v s)) s v)
1

The type of a result is well formed.
(fun f () () u8 (u8 1))
(fun f () () s (u8 1))
0

The body has the type of the result.
(fun f () () u8 (u8 1))
(fun f () () u8 (u32 1))
0

It gives nothing where there is none.
(fun f () () unit unit)
(fun f () () unit true)
0

An entry names a function.
(fun f () () unit unit) (entry f)
(table f u8 1) (entry f)
1

It may stand before the function.
(entry f) (fun f () () unit unit)
(entry g) (fun f () () unit unit)
0

Its function has no type variables.
(fun f () () unit unit) (entry f)
(fun f ('a) () unit unit) (entry f)
1

Its parameters are truth values, integers and buffers of integers.
(fun f () ((a bool) (b su8) (c (buf su64))) unit unit) (entry f)
(fun f () ((c (buf bool))) unit unit) (entry f)
1

No structs.
(struct s () (x u8)) (fun f () ((v s)) unit unit)
(struct s () (x u8)) (fun f () ((v s)) unit unit) (entry f)
2

Its result is nothing, a truth value or an integer.
(fun f () () su8 (su8 1)) (entry f)
(struct s () (x u8)) (fun f () () s (make s () (u8 1))) (entry f)
2";

/// Definitions that the functions below use. The next one has the number 5.
const KNOWN: &str = "(struct pair ('a 'b) (fst 'a) (snd 'b))
(struct view () (data (buf u8)) (size u32))
(sum opt ('a) (None) (Some 'a))
(table t u8 1 2 3)
(fun id ('a) ((x 'a)) 'a x)
";

/// Rules of expressions: the parameters and the result of a function, a body that keeps the rule, and one that breaks it.
const BODIES: &str = "A variable is in scope.
((x u32)) u32
x
y

The newest one of a name counts.
((x u32)) u8
(do (let x u8 (u8 1)) x)
(do (let x u8 (u8 1)) (let x u32 (u32 1)) x)

`unit`.
() unit
unit
(u8 1)

A truth value.
() bool
false
unit

A literal.
() u32
(u32 1)
(u8 1)

The operands of an operator have its type.
((x u32)) u32
(add u32 x (u32 1))
(add u32 x (u8 1))

Its result has.
((x u8)) u8
(mul u8 x x)
(mul u64 (cast u8 u64 x) (cast u8 u64 x))

Division.
((x u64)) u64
(rem u64 x x)
(rem u32 x x)

Masks.
((x su32)) su32
(gtemask su32 x x)
(eqmask su64 x x)

The value of a shift.
((x u8) (n u32)) u8
(shr u8 x n)
(shr u8 n n)

The number of places is of width 32.
((x u64) (n u32)) u64
(shl u64 x n)
(shl u64 x x)

A comparison gives a truth value.
((x u8)) bool
(lt u8 x x)
(lt u32 x x)

So its result is no integer.
((x u8)) u8
(if (ge u8 x x) x x)
(ge u8 x x)

`not`.
((b bool)) bool
(not b)
(not (u8 1))

A cast from the first type
((x u32)) u8
(cast u32 u8 x)
(cast u64 u8 x)

to the second.
((x u32)) u8
(cast u32 su8 x)
(cast u32 u64 x)

`hide`.
((x u32)) su32
(hide u32 x)
(hide u64 x)

Labels are not compared.
((x su32)) u32
(add u32 x (su32 1))
(add u32 x (su64 1))

The fields of a struct have their types.
() (pair u8 u32)
(make pair (u8 u32) (u8 1) (u32 2))
(make pair (u8 u32) (u32 1) (u32 2))

Each field is given.
() (pair u8 u32)
(make pair (u8 u32) (u8 1) (u32 2))
(make pair (u8 u32) (u8 1))

No more.
() (pair u8 u32)
(make pair (u8 u32) (u8 1) (u32 2))
(make pair (u8 u32) (u8 1) (u32 2) (u32 3))

A struct has as many type arguments as type variables.
() (pair u8 u8)
(make pair (u8 u8) (u8 1) (u8 2))
(make pair (u8) (u8 1) (u8 2))

A type argument holds no buffer.
((b (buf u8))) unit
(do (let v view (make view () b (u32 1))) unit)
(do (let v (pair u8 u8) (make pair ((buf u8) u8) b (u8 1))) unit)

A struct is one.
() (opt u8)
(con Some (u8) (u8 1))
(make opt (u8) (u8 1))

A field of the struct.
((p (pair u8 u32))) u32
(get snd p)
(get third p)

It has its type at the arguments.
((p (pair u8 u32))) u32
(get snd p)
(get fst p)

Of a struct.
((p (pair u8 u32)) (o (opt u8))) u8
(get fst p)
(get fst o)

The arguments of a constructor have their types.
() (opt u8)
(con Some (u8) (u8 1))
(con Some (u8) (u32 1))

They are as many.
() (opt u8)
(con None (u8))
(con None (u8) (u8 1))

A constructor is one.
() (opt u8)
(con None (u8))
(con pair (u8))

It has as many type arguments as its sum.
() (opt u8)
(con None (u8))
(con None ())

The elements of a buffer.
((b (buf u8)) (i u32)) u8
(read b i)
(read i i)

An index is of width 32.
((b (buf u8)) (i u32)) u8
(read b i)
(read b (u8 0))

An element is written.
((b (buf u8))) unit
(write b (u32 0) (u8 1))
(write b (u32 0) (u32 1))

To an index of width 32.
((b (buf u8))) unit
(write b (u32 0) (u8 1))
(write b (u64 0) (u8 1))

To a buffer.
((b (buf u8)) (v view)) unit
(write (get data v) (u32 0) (u8 1))
(write v (u32 0) (u8 1))

It gives nothing.
((b (buf u8))) unit
(write b (u32 0) (u8 1))
(do (let x u8 (write b (u32 0) (u8 1))) unit)

A slice is a buffer of the same type.
((b (buf u8))) unit
(do (let c (buf u8) (slice b (u32 0) (u32 1))) unit)
(do (let c (buf u32) (slice b (u32 0) (u32 1))) unit)

Its start is of width 32.
((b (buf u8))) u8
(read (slice b (u32 0) (u32 1)) (u32 0))
(read (slice b (u8 0) (u32 1)) (u32 0))

So is its length.
((b (buf u8))) u8
(read (slice b (u32 0) (u32 1)) (u32 0))
(read (slice b (u32 0) (u64 1)) (u32 0))

A table is one of the file.
((i u32)) u8
(tab t i)
(tab s i)

Its index is of width 32.
((i u32)) u8
(tab t i)
(tab t (u64 0))

A number of the table.
((i u32)) u8
(tab t i)
(cast u8 u32 (tab t i))

A condition is a truth value.
((x u32)) u32
(if (lt u32 x (u32 1)) x (u32 1))
(if x x (u32 1))

Both branches have one type.
((x u32)) u32
(if true x (u32 1))
(if true x (u8 1))

A branch may give nothing.
() unit
(if true unit unit)
(if true unit (u8 1))

A match is on a value.
((x u8)) u8
(match x (_ x))
(match unit (_ x))

All branches have one type.
((o (opt u8))) u8
(match o ((con None) (u8 0)) ((con Some x) x))
(match o ((con None) (u32 0)) ((con Some x) x))

A pattern's constructor is of the value's sum.
((o (opt u8)) (p (pair u8 u8))) u8
(match o (_ (u8 0)))
(match p ((con None) (u8 0)))

It has a pattern for each argument.
((o (opt u8))) u8
(match o ((con Some _) (u8 0)))
(match o ((con Some) (u8 0)))

No more.
((o (opt u8))) u8
(match o ((con None) (u8 0)))
(match o ((con None _) (u8 0)))

A pattern's struct is the value's.
((p (pair u8 u32)) (v view)) u8
(match p ((make pair x _) x))
(match v ((make pair x _) x))

It has a pattern for each field.
((p (pair u8 u32))) u8
(match p ((make pair x y) x))
(match p ((make pair x) x))

A variable has the type of its place.
((p (pair u8 u32))) u32
(match p ((make pair _ y) y))
(match p ((make pair y _) y))

Variables of a pattern are distinct.
((p (pair u8 u8))) u8
(match p ((make pair x y) x))
(match p ((make pair x x) x))

A truth value stands at one.
((b bool) (x u8)) u8
(match b (true x) (false x))
(match x (true x))

A literal stands at its type.
((x u8)) u8
(match x ((u8 0) x))
(match x ((u32 0) x))

Patterns inside patterns.
((o (opt (pair u8 bool)))) u8
(match o ((con Some (make pair x true)) x))
(match o ((con Some (make pair true x)) (u8 0)))

The variables of a branch are those of its pattern.
((o (opt u8))) u8
(match o ((con Some x) x) (_ (u8 0)))
(match o ((con Some x) x) (_ x))

A `let` has its type.
((x u32)) u32
(do (let y u32 x) y)
(do (let y u8 x) x)

That is one of values.
((x u32)) u32
(do unit x)
(do (let y unit unit) x)

It is well formed.
((x u32)) u32
(do (let y (opt u32) (con None (u32))) x)
(do (let y (opt u32 u32) (con None (u32))) x)

Its variable is not in scope in its own value.
((x u32)) u32
(do (let y u32 x) y)
(do (let y u32 y) y)

It is not in scope behind the `do`.
((x u32)) u32
(do (let y u32 (do (let z u32 x) z)) y)
(do (let y u32 (do (let z u32 x) z)) z)

Any other item gives nothing.
((x u32)) u32
(do unit x)
(do x x)

A frame gives what stands in it.
() u32
(frame (u32 1))
(frame unit)

No buffer leaves a frame.
((b (buf u8))) u8
(frame (read b (u32 0)))
(read (frame b) (u32 0))

None in a struct, either.
((b (buf u8)) (x u32)) u32
(get size (make view () b x))
(get size (frame (make view () b x)))

An `alloc` stands in a frame.
() unit
(frame (do (let b (buf u8) (alloc u8 1 (u8 0))) unit))
(do (let b (buf u8) (alloc u8 1 (u8 0))) unit)

Its first value has the type of its elements.
() unit
(frame (do (let b (buf u8) (alloc u8 1 (u8 0))) unit))
(frame (do (let b (buf u8) (alloc u8 1 (u32 0))) unit))

It is a buffer of these.
() unit
(frame (do (let b (buf su8) (alloc u8 1 (u8 0))) unit))
(frame (do (let b (buf u32) (alloc u8 1 (u8 0))) unit))

They hold no buffer.
((v view)) unit
(frame (do (let b (buf u8) (alloc u8 1 (u8 0))) unit))
(frame (do (let b (buf view) (alloc view 1 v)) unit))

No body of a `while` stands between.
() unit
(while true (frame (do (let b (buf u8) (alloc u8 1 (u8 0))) unit)))
(frame (while true (do (let b (buf u8) (alloc u8 1 (u8 0))) unit)))

No condition of one, either.
() unit
(while (frame (do (let b (buf u8) (alloc u8 1 (u8 0))) true)) unit)
(frame (while (do (let b (buf u8) (alloc u8 1 (u8 0))) true) unit))

No body of a `for`.
() unit
(for i (u32 0) (u32 1) (frame (do (let b (buf u8) (alloc u8 1 (u8 0))) unit)))
(frame (for i (u32 0) (u32 1) (do (let b (buf u8) (alloc u8 1 (u8 0))) unit)))

Its bounds may.
() unit
(frame (for i (read (alloc u32 1 (u32 0)) (u32 0)) (u32 1) unit))
(for i (read (alloc u32 1 (u32 0)) (u32 0)) (u32 1) unit)

The condition of a `while` is a truth value.
((c bool)) unit
(while c unit)
(while unit unit)

Its body gives nothing.
((c bool)) unit
(while c unit)
(while c c)

The first bound of a `for` is of width 32.
((n u32)) unit
(for i (u32 0) n unit)
(for i (u8 0) n unit)

So is the second.
((n u32)) unit
(for i (u32 0) n unit)
(for i n (u64 1) unit)

Its body gives nothing.
((n u32)) unit
(for i n n unit)
(for i n n i)

Its variable is of width 32.
((n u32)) unit
(for i n n (do (let j u32 i) unit))
(for i n n (do (let j u8 i) unit))

It is in scope in the body alone.
((n u32)) unit
(for i n n (do (let j u32 i) unit))
(do (for i n n unit) (let j u32 i) unit)

The arguments of a call have the types of the parameters.
() u8
(call id (u8) (u8 1))
(call id (u8) (u32 1))

They are as many.
() u8
(call id (u8) (u8 1))
(call id (u8))

A function has as many type arguments as type variables.
() u8
(call id (u8) (u8 1))
(call id () (u8 1))

A type argument holds no buffer.
((b (buf u8))) u8
(call id (u8) (read b (u32 0)))
(read (call id ((buf u8)) b) (u32 0))

A call has the type of the result.
() u32
(call id (u32) (u32 1))
(call id (u8) (u8 1))

The function is one of the file.
() u8
(call id (u8) (u8 1))
(call di (u8) (u8 1))";

/// Whether the file that a text spells is typed, and else which definition is at fault.
#[derive(Debug, PartialEq, Eq, Clone, Copy)]
enum Checked {
    Well,
    Fault(u32),
    Unread,
}

fn typed(alloc: Global, text: &str) -> Result<Checked, AllocError> {
    let Ok(file) = read_file(alloc, text.as_bytes()) else {
        return Ok(Checked::Unread);
    };
    match check_types(alloc, file) {
        Ok(_) => Ok(Checked::Well),
        Err(TypeRefusal::Fault { def }) => Ok(Checked::Fault(def)),
        Err(TypeRefusal::NoMemory) => Err(AllocError),
    }
}

/// The same of a function behind the known definitions.
fn typed_body(alloc: Global, head: &str, body: &str) -> Result<Checked, AllocError> {
    let text = format!(in alloc; "{KNOWN}(fun f () {head} {body})")?;
    typed(alloc, text.as_str())
}

/// Whether a rule of definitions is kept: the good text is well typed, and the bad one at fault where it says.
fn keeps_definitions(alloc: Global, rule: &str) -> Result<bool, AllocError> {
    let mut lines = rule.lines().skip(1);
    let (Some(good), Some(bad), Some(place)) = (lines.next(), lines.next(), lines.next()) else {
        return Ok(false);
    };
    let Ok(def) = place.parse::<u32>() else {
        return Ok(false);
    };
    Ok(typed(alloc, good)? == Checked::Well && typed(alloc, bad)? == Checked::Fault(def))
}

#[test]
fn rules_of_definitions(rt: HostRuntime) -> Result<(), Fail> {
    for rule in DEFINITIONS.split("\n\n") {
        assert!(rt; keeps_definitions(rt.alloc(), rule)?, "{rule}");
    }
    Ok(())
}

/// Whether a rule of expressions is kept: the good body is well typed, and the function with the bad one is at fault.
fn keeps_expressions(alloc: Global, rule: &str) -> Result<bool, AllocError> {
    let mut lines = rule.lines().skip(1);
    let (Some(head), Some(good), Some(bad)) = (lines.next(), lines.next(), lines.next()) else {
        return Ok(false);
    };
    let well = typed_body(alloc, head, good)? == Checked::Well;
    Ok(well && typed_body(alloc, head, bad)? == Checked::Fault(5))
}

#[test]
fn rules_of_expressions(rt: HostRuntime) -> Result<(), Fail> {
    for rule in BODIES.split("\n\n") {
        assert!(rt; keeps_expressions(rt.alloc(), rule)?, "{rule}");
    }
    Ok(())
}
