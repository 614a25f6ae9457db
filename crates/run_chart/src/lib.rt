//! A run as a picture: the events of a script are applied to a machine, what each did is gathered row by row,
//! and the rows are drawn as SVG: a lane for each core and each cache, one for the manager, and time going
//! down line by line. Everything is written by a small writer of elements that escapes text.
#![tactic(auto)]

mod accesses;
mod arrows;
mod bars;
mod before;
mod copies;
mod drawing;
mod errors;
mod fitting;
mod gathering;
mod laws;
mod markup;
mod messages;
mod naming;
mod notes;
mod plan;
mod playing;
mod posting;
mod row;
mod rows;
mod shapes;
mod sheet;
mod texts;
mod touching;
mod writing;

pub use errors::ChartError;
pub use laws::{escaping_is_safe, fitted_texts_fit};
pub use row::{MOST_LINES, MOST_ROWS};
pub use sheet::STYLE;
pub use writing::write_chart;
