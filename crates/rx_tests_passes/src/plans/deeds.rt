//! What one walk says of a variable, read off the walk's text from action to action.

/// A variable, and the steps from it.
#[derive(Clone, Copy)]
struct Spot<'a> {
    variable: u32,
    path: &'a str,
}

/// An action: its node, its word and its place.
#[derive(Clone, Copy)]
struct Deed<'a> {
    node: &'a str,
    word: &'a str,
    place: &'a str,
}

/// Whether all of a variable has a value, nothing has or some has.
#[derive(Clone, Copy, PartialEq, Eq)]
pub enum State {
    Set,
    Unset,
    Partly,
}

/// What is done with a variable between the run's beginning and its end.
#[derive(Clone, Copy)]
pub struct Role {
    /// Named there, but declared in front.
    pub is_foreign: bool,
    pub is_declared: bool,
    pub is_moved: bool,
}

fn deed_of(action: &str) -> Deed<'_> {
    let (node, rest) = action.split_once(": ").unwrap_or(("", action));
    let (word, rest) = rest.split_once(" ").unwrap_or((rest, ""));
    let (place, _) = rest.split_once(" ").unwrap_or((rest, ""));
    Deed { node, word, place }
}

/// A temporary is none.
fn spot_of(place: &str) -> Option<Spot<'_>> {
    let mut variable = 0u32;
    let mut end = 0usize;
    for byte in place.as_bytes() {
        if !byte.is_ascii_digit() {
            break;
        }
        variable = variable
            .wrapping_mul(10)
            .wrapping_add((*byte as u32).wrapping_sub(48));
        end = end.wrapping_add(1);
    }
    if end == 0 {
        return None;
    }
    let path = place.get(end..).unwrap_or("");
    Some(Spot { variable, path })
}

fn is_behind(path: &str) -> bool {
    path.split_once("*").is_some()
}

/// The path from a variable in an action that has it as its place.
fn path_of<'a>(deed: &Deed<'a>, variable: u32) -> Option<&'a str> {
    match spot_of(deed.place) {
        Some(found) => {
            if found.variable == variable {
                Some(found.path)
            } else {
                None
            }
        }
        None => None,
    }
}

/// Whether the variable has a value as a whole behind an action.
fn written_behind(deed: &Deed<'_>, variable: u32, before: bool) -> bool {
    match path_of(deed, variable) {
        Some("") => match deed.word {
            "write" => true,
            "move" | "declare" | "dead" => false,
            _ => before,
        },
        _ => before,
    }
}

/// Whether an action gives a part a value again, or takes the whole away.
fn is_regained_by(deed: &Deed<'_>, variable: u32, part: &str) -> bool {
    match path_of(deed, variable) {
        Some("") => deed.word != "read" && deed.word != "share" && deed.word != "borrow",
        Some(path) => deed.word == "write" && part.starts_with(path),
        None => false,
    }
}

fn is_regained(behind: &str, variable: u32, part: &str) -> bool {
    for action in behind.split(";") {
        if is_regained_by(&deed_of(action), variable, part) {
            return true;
        }
    }
    false
}

/// The part of a variable that an action moves, where it moves a proper one.
fn moved_part<'a>(deed: &Deed<'a>, variable: u32) -> Option<&'a str> {
    match path_of(deed, variable) {
        Some(path) => {
            if deed.word == "move" && !path.is_empty() && !is_behind(path) {
                Some(path)
            } else {
                None
            }
        }
        None => None,
    }
}

/// Whether a part was moved that has no value since.
fn lacks_a_part(walk: &str, variable: u32) -> bool {
    let mut place = 0usize;
    for action in walk.split(";") {
        place = place.saturating_add(action.len()).saturating_add(1);
        if let Some(part) = moved_part(&deed_of(action), variable) {
            if !is_regained(walk.get(place..).unwrap_or(""), variable, part) {
                return true;
            }
        }
    }
    false
}

/// What a variable is behind a walk.
pub fn state_of(walk: &str, variable: u32) -> State {
    let mut written = false;
    for action in walk.split(";") {
        written = written_behind(&deed_of(action), variable, written);
    }
    if !written {
        State::Unset
    } else if lacks_a_part(walk, variable) {
        State::Partly
    } else {
        State::Set
    }
}

/// Whether an action uses a variable; or that it writes it as a whole, or neither.
fn use_by(deed: &Deed<'_>, variable: u32) -> Option<bool> {
    match path_of(deed, variable) {
        Some(path) => match deed.word {
            "write" => Some(!path.is_empty()),
            "declare" | "dead" => None,
            _ => Some(true),
        },
        None => None,
    }
}

/// Whether a variable is used before it is written as a whole.
fn is_used(behind: &str, variable: u32) -> bool {
    for action in behind.split(";") {
        if let Some(used) = use_by(&deed_of(action), variable) {
            return used;
        }
    }
    false
}

fn is_mark(deed: &Deed<'_>, point: &str) -> bool {
    deed.word == "mark" && deed.node == point
}

/// Whether a variable is used behind some mark of this point, before it is written as a whole.
pub fn is_live_behind(walk: &str, point: &str, variable: u32) -> bool {
    let mut place = 0usize;
    for action in walk.split(";") {
        place = place.saturating_add(action.len()).saturating_add(1);
        if is_mark(&deed_of(action), point) && is_used(walk.get(place..).unwrap_or(""), variable) {
            return true;
        }
    }
    false
}

/// The point whose mark is the walk's last action.
pub fn last_point(walk: &str) -> Option<&str> {
    let mut last = None;
    for action in walk.split(";") {
        if !action.is_empty() {
            let deed = deed_of(action);
            last = if deed.word == "mark" {
                Some(deed.node)
            } else {
                None
            };
        }
    }
    last
}

/// A role with what an action of the run does.
fn role_with(role: Role, deed: &Deed<'_>, variable: u32, own: bool) -> Role {
    if path_of(deed, variable).is_none() || deed.word == "dead" {
        return role;
    }
    let declares = deed.word == "declare";
    Role {
        is_foreign: role.is_foreign || !(own || declares),
        is_declared: role.is_declared || declares,
        is_moved: role.is_moved || deed.word == "move" && !is_behind(deed.place),
    }
}

/// A role with what a walk does in the run.
pub fn role_on(walk: &str, variable: u32, before: Role) -> Role {
    let mut role = before;
    let mut inside = false;
    let mut own = false;
    for action in walk.split(";") {
        let deed = deed_of(action);
        if deed.word == "mark" {
            inside = deed.node == "0";
            own = own && inside;
        } else if inside {
            role = role_with(role, &deed, variable, own);
            own = own || deed.word == "declare" && path_of(&deed, variable).is_some();
        }
    }
    role
}
