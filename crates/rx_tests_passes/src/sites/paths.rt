//! The paths of a graph up to a length, beside the walks of its flow.

use crate::sites::said::action_text;
use crate::sites::walks::{Walk, walks};
use rx_core::LetGo;
use rx_lower_order::flow_of;
use rx_lower_walks::{Flow, Site, graph};
use rx_typed::TypedTree;
use std::alloc::{AllocError, Global};

/// The actions of a path as a text, and its last site.
#[derive(Drop)]
struct Path {
    text: String,
    last: u32,
}

fn is_among(texts: &[String], text: &str) -> bool {
    for other in texts {
        if other.as_str() == text {
            return true;
        }
    }
    false
}

fn push_text(alloc: Global, texts: &mut Vec<String>, text: &str) -> Result<(), AllocError> {
    if is_among(texts.as_slice(), text) {
        return Ok(());
    }
    texts.push(String::from_str(alloc, text)?)?;
    Ok(())
}

/// What walks are, whatever comes of them.
fn walk_texts(alloc: Global, walks: &[Walk]) -> Result<Vec<String>, AllocError> {
    let mut texts = Vec::new(alloc);
    for walk in walks {
        push_text(alloc, &mut texts, walk.text.as_str())?;
    }
    Ok(texts)
}

/// A path with a site behind it, and its text.
fn push_longer(
    alloc: Global,
    paths: &mut Vec<Path>,
    texts: &mut Vec<String>,
    front: &str,
    site: &Site,
    last: u32,
) -> Result<(), AllocError> {
    let mut text = String::from_str(alloc, front)?;
    text.push_str(action_text(alloc, &site.action)?.as_str())?;
    push_text(alloc, texts, text.as_str())?;
    paths.push(Path { text, last })?;
    Ok(())
}

fn push_next(
    alloc: Global,
    paths: &mut Vec<Path>,
    texts: &mut Vec<String>,
    sites: &[Site],
    path: &Path,
    next: &[u32],
) -> Result<(), AllocError> {
    for last in next {
        if let Some(site) = sites.get(*last as usize) {
            push_longer(alloc, paths, texts, path.text.as_str(), site, *last)?;
        }
    }
    Ok(())
}

/// All paths that are a site longer.
fn longer(
    alloc: Global,
    texts: &mut Vec<String>,
    sites: &[Site],
    paths: &[Path],
) -> Result<Vec<Path>, AllocError> {
    let mut all = Vec::new(alloc);
    for path in paths {
        if let Some(site) = sites.get(path.last as usize) {
            push_next(alloc, &mut all, texts, sites, path, site.next.as_slice())?;
        }
    }
    Ok(all)
}

/// The texts of all paths from the first site with at most so many sites.
fn path_texts(alloc: Global, most: usize, sites: &[Site]) -> Result<Vec<String>, AllocError> {
    let mut texts = Vec::new(alloc);
    push_text(alloc, &mut texts, "")?;
    let mut paths = Vec::new(alloc);
    if let Some(first) = sites.get(0) {
        push_longer(alloc, &mut paths, &mut texts, "", first, 0)?;
    }
    for _length in 1..most {
        paths = longer(alloc, &mut texts, sites, paths.as_slice())?;
    }
    Ok(texts)
}

fn are_all_among(texts: &[String], others: &[String]) -> bool {
    for text in texts {
        if !is_among(others, text.as_str()) {
            return false;
        }
    }
    true
}

/// How many lists of actions there are, where both have the same.
fn compared(alloc: Global, texts: &[String], others: &[String]) -> Result<String, AllocError> {
    if are_all_among(texts, others) && are_all_among(others, texts) {
        return format!(in alloc; "{}", texts.len());
    }
    format!(in alloc; "{} walks and {} paths", texts.len(), others.len())
}

fn flow_text(
    alloc: Global,
    most: usize,
    flow: &Flow,
    sites: &[Site],
) -> Result<String, AllocError> {
    let found = walks(alloc, most, flow)?;
    let texts = walk_texts(alloc, found.as_slice())?;
    let others = path_texts(alloc, most, sites)?;
    compared(alloc, texts.as_slice(), others.as_slice())
}

fn graph_of_flow(alloc: Global, most: usize, flow: &Flow) -> Result<String, AllocError> {
    match graph(alloc, flow) {
        Ok(sites) => {
            let text = flow_text(alloc, most, flow, sites.as_slice());
            sites.let_go();
            text
        }
        Err(_) => String::from_str(alloc, "no graph"),
    }
}

/// How many lists of at most so many actions are walks of a function, where they are the paths of its graph.
pub fn agreed(alloc: Global, most: usize, tree: &TypedTree) -> Result<String, AllocError> {
    let flow = flow_of(alloc, tree)?;
    let text = graph_of_flow(alloc, most, &flow);
    flow.let_go();
    text
}
