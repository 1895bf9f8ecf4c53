ghost use Rattle.std.specs.Prelude.{◌≡◌};
ghost use Rattle.name_scope.specs.computed.NameRoles.{no_roles, alone, together};

use mono_syntax::Place;
use script_rules::Role;

/// What a name is in a list of occurrences.
#[derive(Clone, Copy, Debug, PartialEq, Eq)]
pub struct Roles {
    pub field: bool,
    /// It is a name of its block: a parameter, assigned or started.
    pub name: bool,
    /// It is started.
    pub thread: bool,
    /// A start statement of it ends.
    pub ended: bool,
    /// It is a class.
    pub class: bool,
    /// Where it is first defined as a class or function.
    pub definition: Option<Place>,
}

/// What a name is that stands nowhere.
pub(crate) fn no_roles() -> Roles
    ensures { result ≡ no_roles }
{
    Roles {
        field: false,
        name: false,
        thread: false,
        ended: false,
        class: false,
        definition: None,
    }
}

/// What one occurrence makes of its name.
pub(crate) fn alone(role: Role, place: Place) -> Roles
    ensures { result ≡ alone role place }
{
    let mut roles = no_roles();
    match role {
        Role::Class => {
            roles.class = true;
            roles.definition = Some(place);
        }
        Role::Function => roles.definition = Some(place),
        Role::Field => roles.field = true,
        Role::Parameter => roles.name = true,
        Role::Assigned => roles.name = true,
        Role::Annotated => roles.name = true,
        Role::Started => {
            roles.name = true;
            roles.thread = true;
        }
        Role::Ended => roles.ended = true,
        Role::Read => (),
        Role::Called => (),
        Role::Joined => (),
        Role::Typed => (),
    }
    roles
}

/// What a name is by its roles in a list and in one behind it.
pub(crate) fn together(a: Roles, b: Roles) -> Roles
    ensures { result ≡ together a b }
{
    Roles {
        field: a.field || b.field,
        name: a.name || b.name,
        thread: a.thread || b.thread,
        ended: a.ended || b.ended,
        class: a.class || b.class,
        definition: a.definition.or(b.definition),
    }
}
