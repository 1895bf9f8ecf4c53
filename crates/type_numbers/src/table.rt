ghost use Rattle.std.specs.Prelude.{◌≡◌, ◌≤◌, List, IsTrue, ◌↔◌, IfOk, IfSome, IfNone, Contains, length, slice_get};
ghost use Rattle.mono_syntax.specs.Ty.{Ty};
ghost use Rattle.mono_tree.specs.ClosedList.{IsClosedList};
ghost use Rattle.mono_tree.specs.Static.{IsStatic};
ghost use Rattle.mono_tree.specs.TypeNumbers.{IsInRange, Names};
ghost use Rattle.type_shapes.specs.Limits.{IsWithinLimits};
ghost use Rattle.type_numbers.specs.Tables.{IsClass, IsClassType, IsNumberOf, IsPlaceOf, HaveSameNames, parts_of, field_names};

use crate::looks::{is_same_group, meet_in, names_in, part_in, place_in};
use crate::making::{ClosedTypes, closed_types, numbers_of, statics_of};
use indexmap::IndexSet;
use mono_syntax::{ClassNo, Name, Ty, TypeNo};
use mono_tree::Meets;
use sqlite_items::Items;
use std::alloc::{AllocError, Global};
use std::marker::Model;
use type_shapes::Shape;

/// The types of a closed list by number, and the types of classes. Contracts see these two lists.
#[derive(Drop)]
pub struct TypeTable {
    set: IndexSet<Ty>,
    shapes: IndexSet<Shape>,
    names: Vec<Items<Name>>,
    rows: Vec<Items<Option<u16>>>,
    statics: Vec<bool>,
    classes: Vec<TypeNo>,
}

impl Model for TypeTable {
    ghost use Rattle.type_numbers.specs.Kept.{IsTable, types_at};
    ghost use Rattle.type_numbers.specs.Tables.{Table, table_code};

    ghost Value = { Table };

    ghost coded = { table_code };

    ghost view = { λ t. record { types = t.set.keys; classes = types_at t.set.keys t.classes.items } };

    ghost invariant = { λ t. IsTable t.names.items t.set.keys t.shapes.keys t.rows.items t.statics.items t.classes.items };
}

impl TypeTable {
    /// The table of a closed list, and of classes whose types stand in it.
    pub fn new(alloc: Global, closed: IndexSet<Ty>, classes: &[Ty]) -> Result<TypeTable, AllocError>
        requires closed { (types : List Ty) × IsClosedList types closed.keys }
        requires within { IsWithinLimits closed.keys }
        requires classes { (t : Ty) → Contains classes.now t → Contains closed.keys t }
        ensures types { IfOk result (λ table. table.types ≡ closed.keys) }
        ensures classes { IfOk result (λ table. table.classes ≡ classes.now) }
    {
        let made = match closed_types(alloc, closed.as_slice()) {
            Ok(made) => made,
            // The list is within the limits: only memory can be wanting.
            Err(_) => return Err(AllocError),
        };
        let ClosedTypes {
            names,
            set,
            shapes,
            rows,
        } = made;
        let statics = statics_of(alloc, set.as_slice())?;
        let classes = numbers_of(alloc, &set, classes)?;
        Ok(TypeTable {
            set,
            shapes,
            names,
            rows,
            statics,
            classes,
        })
    }

    /// How many types have numbers.
    pub fn count(&self) -> usize
        ensures count { result ≡ length self.now.types }
        ensures few { result ≤ 4095 }
    {
        self.set.as_slice().len()
    }

    /// The number of a type; None where the list hasn't it.
    pub fn number_of(&self, a: &Ty) -> Option<TypeNo>
        ensures found { IfSome result (λ n. Names self.now.types n a.now) }
        ensures absent { IfNone result (Contains self.now.types a.now → ⊥) }
    {
        match self.set.get_index_of(a) {
            Some(at) => Some(TypeNo(at as u16)),
            None => None,
        }
    }

    /// The types in the order of their numbers.
    pub fn as_slice(&self) -> &[Ty]
        ensures { result.now ≡ self.now.types }
    {
        self.set.as_slice()
    }

    /// The type of a number.
    pub fn ty(&self, a: TypeNo) -> &Ty
        requires { IsInRange self.now.types a }
        ensures { Names self.now.types a result.now }
    {
        &self.set.as_slice()[a.0 as usize]
    }

    /// Whether no `Dyn` stands in the type.
    pub fn is_static_no(&self, a: TypeNo) -> bool
        requires { IsInRange self.now.types a }
        ensures { (x : Ty) → Names self.now.types a x → (IsTrue result ↔ IsStatic x) }
    {
        self.statics.as_slice()[a.0 as usize]
    }

    /// The number of the part at a place: of a function its parameters come in order, and then its result; of an object the types
    /// of its fields, by name. None where there is no such part.
    pub fn part(&self, a: TypeNo, i: u32) -> Option<TypeNo>
        requires { IsInRange self.now.types a }
        ensures { (x : Ty) → Names self.now.types a x → IsNumberOf self.now.types result (slice_get (parts_of x) i) }
    {
        part_in(&self.shapes.as_slice()[a.0 as usize], i)
    }

    /// The number of a class's type.
    pub fn class_type(&self, c: ClassNo) -> TypeNo
        requires { IsClass self.now c }
        ensures range { IsInRange self.now.types result }
        ensures names { (x : Ty) → IsClassType self.now c x → Names self.now.types result x }
    {
        self.classes.as_slice()[c.0 as usize]
    }

    /// The place of a field among the fields of a class, by name; None where the class has no such field.
    pub fn field_at(&self, c: ClassNo, name: &str) -> Option<u32>
        requires { IsClass self.now c }
        ensures { (x : Ty) → IsClassType self.now c x → IsPlaceOf (field_names x) name.now result }
    {
        let class = self.class_type(c);
        let head = self.shapes.as_slice()[class.0 as usize].head;
        let names = names_in(self.names.as_slice(), head);
        place_in(names, name.as_bytes())
    }

    /// Whether the type is an object type with exactly the class's names.
    pub fn same_names(&self, c: ClassNo, a: TypeNo) -> bool
        requires class { IsClass self.now c }
        requires range { IsInRange self.now.types a }
        ensures { (x y : Ty) → IsClassType self.now c x → Names self.now.types a y → (IsTrue result ↔ HaveSameNames x y) }
    {
        let class = self.class_type(c);
        let shapes = self.shapes.as_slice();
        is_same_group(shapes[class.0 as usize].head, shapes[a.0 as usize].head)
    }
}

impl Meets for TypeTable {
    ghost types = { λ t. t.types };

    fn meet_no(&self, a: TypeNo, b: TypeNo) -> Option<TypeNo> {
        meet_in(self.rows.as_slice(), a, b)
    }

    fn precise_no(&self, a: TypeNo, b: TypeNo) -> bool {
        match meet_in(self.rows.as_slice(), a, b) {
            Some(m) => m.0 == a.0,
            None => false,
        }
    }
}
