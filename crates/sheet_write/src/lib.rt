// Sheets of minute prices, written: the bound of an instance with what proves it.
#![tactic(auto)]

mod laws;
mod prices;
mod sheet;
mod teams;

pub use cert_write::PutFault;
pub use laws::{proved_sheets_are_good, squeezed_prices_prove, teams_have_tables};
pub use sheet::{SheetParts, write_priced_sheet, write_sheet};
