//! The options of an import.

ghost use Rattle.std.specs.Prelude.{◌≡◌, ok_or};
ghost use Rattle.cfx_profile.specs.Forms.{id_of};
ghost use Rattle.desk_feed.specs.Options.{counts_import, id_in, setup_import, time_in};

use cfx_profile::read_minute;
use desk_types::{Id, Minute};
use imports::{Content, Import};

/// The first bad option.
#[derive(Clone, Copy, PartialEq, Eq)]
pub enum BadOption {
    Id,
    Source,
    Time,
    Product,
    Machine,
}

/// Returns the import of a setup file.
#[tactic(auto, unfolding(crate::specs::Options::setup_import))]
pub fn setup_import(
    id: &str,
    source: &str,
    time: &str,
    product: &str,
    machine: &str,
) -> Result<Import, BadOption>
    ensures { result ≡ setup_import id.now source.now time.now product.now machine.now }
{
    let stamp = counts_import(id, source, time)?;
    let content = Content::Sheet {
        product: id_in(product, BadOption::Product)?,
        machine: id_in(machine, BadOption::Machine)?,
    };
    Ok(Import { content, ..stamp })
}

/// Returns the import of a count file.
#[tactic(auto, unfolding(crate::specs::Options::counts_import))]
pub fn counts_import(id: &str, source: &str, time: &str) -> Result<Import, BadOption>
    ensures { result ≡ counts_import id.now source.now time.now }
{
    Ok(Import {
        uid: id_in(id, BadOption::Id)?,
        source: id_in(source, BadOption::Source)?,
        minute: time_in(time)?,
        content: Content::Counts,
    })
}

fn id_in(text: &str, option: BadOption) -> Result<Id, BadOption>
    ensures { result ≡ id_in text.now option }
{
    Id::read(text.as_bytes()).ok_or(option)
}

#[tactic(auto, unfolding(cfx_profile::specs::Minute::minute_said))]
fn time_in(text: &str) -> Result<Minute, BadOption>
    ensures { result ≡ time_in text.now }
{
    read_minute(text).map_err(|_| BadOption::Time)
}
