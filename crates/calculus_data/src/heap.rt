ghost use Rattle.std.specs.Prelude.{◌≡◌, [], ◌∷◌, ◌++◌, ◌-◌, ◌<◌, ◌^◌, min, IfOk, OnOk, slice_get};
ghost use Rattle.std.specs.Option.{option_copied};
ghost use Rattle.cast_machine.specs.Heap.{Heap, size, heap_size, object_at, cell_at, set_cell};
ghost use Rattle.calculus_data.specs.computed.HeapPlaces.{object_place, starts_of};

use crate::copies::copy_object;
use cast_machine::{Cell, Object};
use std::alloc::{AllocError, Global};
use std::marker::Model;

/// The objects of a run. An object of k fields takes max 1 k cells, and its address is the number of cells before it.
#[derive(Drop)]
pub struct Heap {
    objects: Vec<Object>,
    /// The address of each object, so that the object at an address is found by halving.
    starts: Vec<u64>,
    cells: u64,
}

impl Model for Heap {
    ghost use Rattle.std.specs.Prelude.{◌≡◌, ◌^◌, ◌-◌, min, List};
    ghost use Rattle.cast_machine.specs.Heap.{heap_size};
    ghost use Rattle.cast_machine.specs.declared.data.Object.{Object};
    ghost use Rattle.calculus_data.specs.computed.HeapPlaces.{starts_of};
    ghost use Rattle.std.specs.Coded.{coded_list};
    ghost use Rattle.cast_machine.specs.contracts.data.Object as object;

    ghost Value = { List Object };

    ghost coded = { coded_list object.the_row.coded };

    ghost view = { λ h. h.objects.items };

    ghost invariant = { λ h. (h.cells ≡ min (heap_size h.objects.items) (2 ^ 64 - 1)) × (h.starts.items ≡ starts_of h.objects.items) };
}

/// The cells that an object takes.
pub fn size(object: &Object) -> u64
    ensures { result ≡ size object.now }
{
    (object.cells.entries().len() as u64).max(1)
}

/// Where the object at an address stands in a heap whose objects have these addresses.
fn place_in(starts: &[u64], base: u64) -> Option<usize>
    requires { base < 2 ^ 32 }
    ensures { (h : Heap) → starts.now ≡ starts_of h → result ≡ object_place 0 h base }
{
    match starts.binary_search(&base) {
        Ok(at) => Some(at),
        Err(_) => None,
    }
}

fn object_number(objects: &[Object], at: usize) -> Option<&Object>
    ensures { option_copied result ≡ slice_get objects.now at }
{
    objects.get(at)
}

/// The object at an address.
fn object_in<'a>(objects: &'a [Object], starts: &[u64], base: u64) -> Option<&'a Object>
    requires small { base < 2 ^ 32 }
    requires starts { starts.now ≡ starts_of objects.now }
    ensures { option_copied result ≡ object_at objects.now base }
{
    match place_in(starts, base) {
        Some(at) => object_number(objects, at),
        None => None,
    }
}

/// The cell of a field of the object at an address.
fn cell_in<'a>(objects: &'a [Object], starts: &[u64], base: u64, field: &[u8]) -> Option<&'a Cell>
    requires small { base < 2 ^ 32 }
    requires starts { starts.now ≡ starts_of objects.now }
    ensures { option_copied result ≡ cell_at objects.now base field.now }
{
    match object_in(objects, starts, base) {
        None => None,
        Some(object) => {
            if object.waits == 0 {
                object.cells.get(field)
            } else {
                None
            }
        }
    }
}

/// Another cell for a field of the object at an address.
fn set_in(objects: &mut Vec<Object>, starts: &[u64], base: u64, field: &[u8], cell: Cell)
    requires small { base < 2 ^ 32 }
    requires starts { starts.now ≡ starts_of objects.old.items }
    ensures { objects.new.items ≡ set_cell objects.old.items base field.now cell }
{
    if let Some(at) = place_in(starts, base) {
        objects[at].cells.set(field, cell);
    }
}

/// The same objects.
fn copy_objects(alloc: Global, objects: &[Object]) -> Result<Vec<Object>, AllocError>
    ensures { IfOk result (λ copy. copy.items ≡ objects.now) }
{
    let mut copy = Vec::new(alloc);
    for object in objects {
        let object = copy_object(alloc, object)?;
        copy.push(object)?;
    }
    Ok(copy)
}

fn copy_starts(alloc: Global, starts: &[u64]) -> Result<Vec<u64>, AllocError>
    ensures { IfOk result (λ copy. copy.items ≡ starts.now) }
{
    let mut copy = Vec::new(alloc);
    copy.extend_from_slice(starts)?;
    Ok(copy)
}

impl Heap {
    /// The same heap.
    pub fn copied(&self, alloc: Global) -> Result<Heap, AllocError>
        ensures { IfOk result (λ copy. copy ≡ self.now) }
    {
        let objects = copy_objects(alloc, self.objects.as_slice())?;
        let starts = copy_starts(alloc, self.starts.as_slice())?;
        Ok(Heap {
            objects,
            starts,
            cells: self.cells,
        })
    }

    /// The heap without an object.
    pub fn new(alloc: Global) -> Heap
        ensures { result ≡ [] }
    {
        Heap {
            objects: Vec::new(alloc),
            starts: Vec::new(alloc),
            cells: 0,
        }
    }

    /// The number of cells. It stands still at its last value.
    pub fn size(&self) -> u64
        ensures { result ≡ min (heap_size self.now) (2 ^ 64 - 1) }
    {
        self.cells
    }

    /// The cell of a field of the object at an address.
    pub fn cell(&self, base: u32, field: &[u8]) -> Option<&Cell>
        ensures { option_copied result ≡ cell_at self.now base field.now }
    {
        cell_in(
            self.objects.as_slice(),
            self.starts.as_slice(),
            base as u64,
            field,
        )
    }

    /// Another cell for a field of the object at an address.
    #[tactic(auto, using(crate::proofs::HeapWrites::heap_sizes, crate::proofs::Starts::addresses))]
    pub fn set(&mut self, base: u32, field: &[u8], cell: Cell)
        ensures { self.new ≡ set_cell self.old base field.now cell }
    {
        set_in(
            &mut self.objects,
            self.starts.as_slice(),
            base as u64,
            field,
            cell,
        );
    }

    /// One more object at the end.
    #[tactic(auto, using(crate::proofs::HeapWrites::heap_sizes, crate::proofs::Starts::addresses))]
    pub fn push(&mut self, object: Object) -> Result<(), AllocError>
        ensures { OnOk result (self.new ≡ self.old ++ object ∷ []) }
    {
        let more = size(&object);
        self.starts.push(self.cells)?;
        if let Err(error) = self.objects.push(object) {
            self.starts.pop();
            return Err(error.into());
        }
        self.cells = self.cells.saturating_add(more);
        Ok(())
    }
}
