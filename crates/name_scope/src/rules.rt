ghost use Rattle.std.specs.Prelude.{◌≡◌};
ghost use Rattle.script_rules.specs.NameRules.{is_earlier, later};
ghost use Rattle.name_scope.specs.computed.NameRoles.{is_unknown, is_twice, is_misused, defined_at};

use crate::roles::Roles;
use mono_syntax::Place;
use script_rules::Role;

/// Whether a name is used that is no name of its block, no function and no class, or stands in a type and is no class.
pub(crate) fn is_unknown(role: Role, body: Roles, script: Roles) -> bool
    ensures { result ≡ is_unknown role body script }
{
    match role {
        Role::Read => is_undefined(body, script),
        Role::Called => is_undefined(body, script),
        Role::Joined => is_undefined(body, script),
        Role::Typed => !script.class,
        _ => false,
    }
}

fn is_undefined(body: Roles, script: Roles) -> bool
    ensures { result ≡ is_unknown Role.Read body script }
{
    !(body.name || script.definition.is_some())
}

/// Whether a name stands for a second thing.
pub(crate) fn is_twice(role: Role, before: Roles) -> bool
    ensures { result ≡ is_twice role before }
{
    match role {
        Role::Class => before.definition.is_some(),
        Role::Function => before.definition.is_some(),
        Role::Field => before.field,
        Role::Parameter => before.name,
        Role::Assigned => before.thread,
        Role::Annotated => before.name,
        Role::Started => before.name,
        _ => false,
    }
}

/// Whether a name of its kind can't stand there.
pub(crate) fn is_misused(role: Role, body: Roles, before: Roles, script: Roles) -> bool
    ensures { result ≡ is_misused role body before script }
{
    match role {
        Role::Read => body.thread || script.class,
        Role::Called => body.thread,
        Role::Joined => !before.ended,
        _ => false,
    }
}

/// Where a name of a block is also a function's or class's.
pub(crate) fn defined_at(role: Role, script: Roles) -> Option<Place>
    ensures { result ≡ defined_at role script }
{
    match role {
        Role::Parameter => script.definition,
        Role::Assigned => script.definition,
        Role::Annotated => script.definition,
        Role::Started => script.definition,
        _ => None,
    }
}

fn is_earlier(p: Place, q: Place) -> bool
    ensures { result ≡ is_earlier p q }
{
    p.line < q.line || (p.line == q.line && p.column < q.column)
}

/// The later of two places.
pub(crate) fn later(p: Place, q: Place) -> Place
    ensures { result ≡ later p q }
{
    if is_earlier(p, q) { q } else { p }
}
