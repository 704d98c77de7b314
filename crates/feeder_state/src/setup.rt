//! The setup: the sheets with their look-ups, and the alternates of each part.

mod rows;

ghost use Rattle.std.specs.Prelude.{◌≡◌, ◌||◌, ◌&&◌, Some, if◌then◌else◌, [], ◌∷◌, OnOk};
ghost use Rattle.std.specs.Option.{option_copied, option_or};
ghost use Rattle.desk_types.specs.declared.command.Entry.{Entry as Accepted};
ghost use Rattle.desk_types.specs.Id.{Name, same};
ghost use Rattle.desk_types.specs.History.{History};
ghost use Rattle.desk_types.specs.Setup.{allows, sheet_by, sheet_of};
ghost use Rattle.desk_types.specs.View.{defines_on, has_sheet};
ghost use Rattle.feeder_state.specs.Setup.{IsSetup, sheet_at, is_sheeted};
ghost use Rattle.feeder_state.specs.Sets.{is_name_at};

pub use self::rows::setup_of;
use crate::sets::put_name;
use desk_types::{Command, Id, SheetRows};
use setup_sheets::Sheet;
use std::alloc::{AllocError, Global};
use std::collections::{BTreeMap, BTreeSet};

/// The sheets by product and machine with their look-ups, the machines that some sheet names, and the alternates of each
/// part.
#[derive(Drop)]
pub struct Setup {
    sheets: BTreeMap<(Id, Id), Sheet>,
    sheeted: BTreeSet<Id>,
    pub alternates: BTreeMap<Id, BTreeSet<Id>>,
}

impl Setup {
    /// The setup before the first command. Takes no memory.
    pub fn new(alloc: Global) -> Setup
        ensures { IsSetup [] result }
    {
        Setup {
            sheets: BTreeMap::new(alloc),
            sheeted: BTreeSet::new(alloc),
            alternates: BTreeMap::new(alloc),
        }
    }

    /// Notes an accepted command, whose rows are moved in. Fails only if memory is refused; then drop the setup.
    pub fn note(&mut self, alloc: Global, command: Command) -> Result<(), AllocError>
        ensures { (H : History) (e : Accepted) → e.stamped.command ≡ command → IsSetup H self.old
            → OnOk result (IsSetup (e ∷ H) self.new) }
    {
        note_machine(&mut self.sheeted, &command)?;
        note_alternate(alloc, &mut self.alternates, &command)?;
        note_sheet(alloc, &mut self.sheets, command)?;
        Ok(())
    }

    /// The sheet of the product on the machine, with its look-ups.
    pub fn sheet(&self, product: &Id, machine: &Id) -> Option<&Sheet>
        ensures { (H : History) → IsSetup H self.now
            → option_copied result ≡ sheet_of H product.now machine.now }
    {
        self.sheets.get(&(*product, *machine))
    }

    /// The rows of the last sheet of the product on the machine.
    pub fn sheet_of(&self, product: &Id, machine: &Id) -> Option<&SheetRows>
        ensures { (H : History) → IsSetup H self.now
            → option_copied result ≡ sheet_of H product.now machine.now }
    {
        let sheet = self.sheet(product, machine)?;
        Some(sheet.rows())
    }

    /// Whether some sheet names the machine.
    pub fn has_sheet(&self, machine: &Id) -> bool
        ensures { (H : History) → IsSetup H self.now → result ≡ has_sheet H machine.now }
    {
        self.sheeted.contains(machine)
    }
}

fn note_machine(sheeted: &mut BTreeSet<Id>, command: &Command) -> Result<(), AllocError>
    ensures { (m : Name)
        → OnOk result (is_sheeted sheeted.new m
        ≡ (defines_on m command.now || is_sheeted sheeted.old m)) }
{
    if let Command::SheetDefined { machine, .. } = command {
        sheeted.insert(*machine)?;
    }
    Ok(())
}

fn note_alternate(
    alloc: Global,
    alternates: &mut BTreeMap<Id, BTreeSet<Id>>,
    command: &Command,
) -> Result<(), AllocError>
    ensures { (p q : Name)
        → OnOk result (is_name_at alternates.new p q
        ≡ (allows p q command.now || is_name_at alternates.old p q)) }
{
    if let Command::AlternateAllowed { part, alternate } = command {
        put_name(alloc, alternates, part, *alternate)?;
    }
    Ok(())
}

fn put_sheet(
    sheets: &mut BTreeMap<(Id, Id), Sheet>,
    product: Id,
    machine: Id,
    sheet: Sheet,
) -> Result<(), AllocError>
    ensures { (p m : Name)
        → OnOk result
        (sheet_at sheets.new p m
        ≡ (if same product p && same machine m then Some sheet else sheet_at sheets.old p m)) }
{
    sheets.insert((product, machine), sheet)?;
    Ok(())
}

/// Puts the sheet that the command gives in the place of the one before.
fn note_sheet(
    alloc: Global,
    sheets: &mut BTreeMap<(Id, Id), Sheet>,
    command: Command,
) -> Result<(), AllocError>
    ensures { (p m : Name)
        → OnOk result (sheet_at sheets.new p m
        ≡ option_or (sheet_by p m command) (sheet_at sheets.old p m)) }
{
    if let Command::SheetDefined {
        product,
        machine,
        rows,
    } = command
    {
        put_sheet(sheets, product, machine, Sheet::new(alloc, rows)?)?;
    }
    Ok(())
}
