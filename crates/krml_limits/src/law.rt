//! A law about limits, as the contract of a call that does nothing.

ghost use Rattle.std.specs.Prelude.{◌≡◌, ◌↔◌, List, None};
ghost use Rattle.krml_forms.specs.declared.form.Form.{Form};
ghost use Rattle.krml_syntax.specs.declared.tree.Def.{Def};
ghost use Rattle.krml_syntax.specs.Limits.{first_excess};
ghost use Rattle.krml_limits.specs.Within.{IsWithin};

/// No limit is exceeded exactly where each count of each kind is at most the limit of the kind.
pub fn none_exceeded()
    ensures { (forms : List Form) (defs : List Def) → (first_excess forms defs ≡ None) ↔ IsWithin forms defs }
{}
