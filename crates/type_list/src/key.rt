use mono_list::Shared;
use mono_syntax::Ty;
use std::hash::{Hash, Hasher};
use std::marker::Model;

/// A type that is a key of a set.
#[derive(Drop)]
pub struct TypeKey {
    pub ty: Shared<Ty>,
}

impl Model for TypeKey {
    ghost use Rattle.mono_syntax.specs.Ty.{Ty, ty_code};

    ghost Value = { Ty };

    ghost coded = { ty_code };

    ghost view = { λ k. k.ty };
}

impl PartialEq for TypeKey {
    ghost use Rattle.mono_syntax.specs.computed.TyEq.{ty_eq};
    ghost use Rattle.mono_syntax.specs.TyEqLaws.{ty_eq-partial};

    ghost eq = { ty_eq };

    ghost laws = { ty_eq-partial };

    fn eq(&self, other: &TypeKey) -> bool {
        self.ty.get() == other.ty.get()
    }
}

impl Eq for TypeKey {
    ghost use Rattle.mono_syntax.specs.TyEqLaws.{ty_eq-laws};

    ghost laws = { ty_eq-laws };
}

impl Hash for TypeKey {
    ghost use Rattle.mono_syntax.specs.computed.TyEq.{ty_fed};
    ghost use Rattle.mono_syntax.specs.TyEqLaws.{ty_fed-alike};

    ghost hash_input = { ty_fed };

    ghost respects_eq = { ty_fed-alike };

    fn hash<H: Hasher>(&self, state: &mut H) {
        self.ty.get().hash(state);
    }
}
