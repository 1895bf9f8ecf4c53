ghost use Rattle.std.specs.Prelude.{◌≡◌, ◌<◌, Some, length, slice_get};

use crate::data::Program;
use mono_syntax::{ClassNo, FuncNo, Name, Site, TyAt, TypeNo};
use type_numbers::TypeTable;

/// What stands at a number, without memory.
impl Program {
    /// The types by number.
    pub fn types(&self) -> &TypeTable
        ensures { result.now ≡ self.now.table }
    {
        &self.table
    }

    /// The site of a number.
    pub fn site(&self, n: u32) -> &Site
        requires { n < length self.now.sites }
        ensures { slice_get self.now.sites n ≡ Some result.now }
    {
        &self.sites.as_slice()[n as usize]
    }

    /// The text of a number: a text, or the name of a field.
    pub fn text(&self, n: u32) -> &Name
        requires { n < length self.now.texts }
        ensures { slice_get self.now.texts n ≡ Some result.now }
    {
        &self.texts.as_slice()[n as usize]
    }

    /// The name of a class.
    pub fn class_name(&self, c: ClassNo) -> &Name
        requires { c.0 < length self.now.class_names }
        ensures { slice_get self.now.class_names c.0 ≡ Some result.now }
    {
        &self.class_names.as_slice()[c.0 as usize]
    }

    /// The name of a function.
    pub fn function_name(&self, f: FuncNo) -> &Name
        requires { f.0 < length self.now.function_names }
        ensures { slice_get self.now.function_names f.0 ≡ Some result.now }
    {
        &self.function_names.as_slice()[f.0 as usize]
    }

    /// The number of the type at a position of the script's list, as a site tells its source and its target.
    pub fn site_type(&self, a: TyAt) -> TypeNo
        requires { a.0 < length self.now.site_types }
        ensures { slice_get self.now.site_types a.0 ≡ Some result }
    {
        self.site_types.as_slice()[a.0 as usize]
    }
}
