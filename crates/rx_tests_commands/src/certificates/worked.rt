//! The commands `certify` and `verify`: a certificate byte for byte, that it is good for its text, and lines and sets that aren't.

use crate::failing::{expect, refused, sound};

const PRODUCT: &str =
    "function 0 17 0\ntext\nfn main() {\n    let a = 2i64;\n    let b = 3i64;\n    let c = a * b;\n    println!(\"{}\", c);\n}\n";

const SHORTER: &str =
    "function 0 16 0\ntext\nfn main() {\n    let a = 2i64;\n    let b = 3i64;\n    let c = a * b;\n    println!(\"{}\", c);\n}\n";

const BORROW: &str =
    "function 0 11 3\nr 6-6\nr 4-6\nr 4-6\nl 3 4-6\ntext\nfn main() { let x = 1; let r = &x; println!(\"{}\", *r); }";

const EMPTIED: &str =
    "function 0 11 3\nr\nr\nr\nl 3 4-6\ntext\nfn main() { let x = 1; let r = &x; println!(\"{}\", *r); }";

/// The bytes behind the line `text`.
fn text_of(certificate: &str) -> &[u8] {
    match certificate.split_once("text\n") {
        Some((_, text)) => text.as_bytes(),
        None => b"",
    }
}

#[test]
fn a_text_has_its_certificate(rt: HostRuntime) {
    for certificate in [PRODUCT, BORROW] {
        let text = text_of(certificate);
        expect(
            &rt,
            rt.alloc(),
            &sound("certify", text, certificate.as_bytes()),
        );
    }
}

#[test]
fn a_certificate_is_good_for_its_text(rt: HostRuntime) {
    for certificate in [PRODUCT, BORROW] {
        expect(
            &rt,
            rt.alloc(),
            &sound("verify", certificate.as_bytes(), b"accepted\n"),
        );
    }
}

#[test]
fn another_number_of_sites_is_told_by_its_line(rt: HostRuntime) {
    let form = "error: NotAccepted Form 1\n";
    expect(
        &rt,
        rt.alloc(),
        &refused("verify", SHORTER.as_bytes(), 3, form),
    );
}

#[test]
fn sets_without_points_break_the_first_rule(rt: HostRuntime) {
    let rule = "error: NotAccepted Rule 0 1\n";
    expect(
        &rt,
        rt.alloc(),
        &refused("verify", EMPTIED.as_bytes(), 3, rule),
    );
}

#[test]
fn a_text_that_is_not_accepted_has_no_certificate(rt: HostRuntime) {
    let missing = "error: NotAccepted Missing 26 48 false\n";
    let text = b"fn main() { let b = true; match b { true => {} } }";
    expect(&rt, rt.alloc(), &refused("certify", text, 3, missing));
    let with_text = b"text\nfn main() { let b = true; match b { true => {} } }";
    expect(&rt, rt.alloc(), &refused("verify", with_text, 3, missing));
    expect(
        &rt,
        rt.alloc(),
        &refused("certify x", text, 2, "error: Usage\n"),
    );
}
