//! Laws of what an extraction declares.
#![tactic(auto)]

mod laws;

pub use laws::{
    declarations_stay, extractions_declare_what_stays, items_declare_by_their_text,
    new_items_declare_by_the_plan, typed_programs_declare_what_stays,
};
