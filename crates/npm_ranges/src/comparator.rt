// Comparators as they are written, and whether a version meets one.
ghost use Rattle.std.specs.Prelude.{◌≡◌, take, map};
ghost use Rattle.std.specs.List.{list_all, list_any};
ghost use Rattle.semver.specs.Identifiers.{parts_of};
ghost use Rattle.npm_ranges.specs.Ranges as spec;
ghost use Rattle.npm_ranges.specs.Ranges.{agree, meets_comparator, numbers_of, order, up_to_nonzero};
ghost use Rattle.npm_ranges.specs.Views.{seen, sets_seen, spelled};

use std::cmp::Ordering;

/// The sign before a partial; where there is none it is `Equal`.
#[derive(Clone, Copy, Debug, PartialEq, Eq)]
pub(crate) enum Sign {
    Equal,
    Less,
    LessOrEqual,
    Greater,
    GreaterOrEqual,
    Tilde,
    Caret,
}

/// The numbers before the first free or missing part.
#[derive(Drop)]
pub(crate) enum Partial {
    Any,
    Major(u64),
    Minor(u64, u64),
    /// Three numbers and perhaps a pre-release. Its build text has no effect.
    Full(semver::Version),
}

/// A sign and its partial.
#[derive(Drop)]
pub(crate) struct Comparator {
    pub(crate) sign: Sign,
    pub(crate) partial: Partial,
}

fn filled_order(version: &semver::Version, partial: &Partial) -> Ordering
    ensures { result ≡ order (parts_of version.now) (spelled partial.now) }
{
    match partial {
        Partial::Any => version.cmp_precedence(&semver::Version::new(0, 0, 0)),
        Partial::Major(major) => version.cmp_precedence(&semver::Version::new(*major, 0, 0)),
        Partial::Minor(major, minor) => {
            version.cmp_precedence(&semver::Version::new(*major, *minor, 0))
        }
        Partial::Full(full) => version.cmp_precedence(full),
    }
}

/// How the version's first numbers compare with those that are written.
fn prefix_order(version: &semver::Version, partial: &Partial) -> Ordering
    ensures { result ≡ spec.prefix_order (parts_of version.now) (spelled partial.now) }
{
    match partial {
        Partial::Any => Ordering::Equal,
        Partial::Major(major) => version.major.cmp(major),
        Partial::Minor(major, minor) => version.major.cmp(major).then(version.minor.cmp(minor)),
        Partial::Full(full) => version
            .major
            .cmp(&full.major)
            .then(version.minor.cmp(&full.minor))
            .then(version.patch.cmp(&full.patch)),
    }
}

/// Whether the version has the numbers that are written.
fn prefix_agrees(version: &semver::Version, partial: &Partial) -> bool
    ensures { result ≡ agree (spelled partial.now).numbers (numbers_of (parts_of version.now)) }
{
    match partial {
        Partial::Any => true,
        Partial::Major(major) => version.major == *major,
        Partial::Minor(major, minor) => version.major == *major && version.minor == *minor,
        Partial::Full(full) => {
            version.major == full.major
                && version.minor == full.minor
                && version.patch == full.patch
        }
    }
}

/// Whether the version has the major and the minor number that are written.
fn minor_agrees(version: &semver::Version, partial: &Partial) -> bool
    ensures { result ≡ agree (take 2 (spelled partial.now).numbers) (numbers_of (parts_of version.now)) }
{
    match partial {
        Partial::Full(full) => version.major == full.major && version.minor == full.minor,
        _ => prefix_agrees(version, partial),
    }
}

/// Whether the version has the numbers up to the leftmost written one that is not 0.
fn caret_agrees(version: &semver::Version, partial: &Partial) -> bool
    ensures { result ≡ agree (up_to_nonzero (spelled partial.now).numbers) (numbers_of (parts_of version.now)) }
{
    match partial {
        Partial::Any => true,
        Partial::Major(major) => version.major == *major,
        Partial::Minor(major, minor) => {
            version.major == *major && (*major != 0 || version.minor == *minor)
        }
        Partial::Full(full) => {
            version.major == full.major
                && (full.major != 0
                    || version.minor == full.minor
                        && (full.minor != 0 || version.patch == full.patch))
        }
    }
}

fn meets_full(sign: Sign, version: &semver::Version, partial: &Partial) -> bool
    ensures { result ≡ spec.meets_full sign (parts_of version.now) (spelled partial.now) }
{
    let ordering = filled_order(version, partial);
    match sign {
        Sign::Equal => ordering.is_eq(),
        Sign::Less => ordering.is_lt(),
        Sign::LessOrEqual => ordering.is_le(),
        Sign::Greater => ordering.is_gt(),
        Sign::GreaterOrEqual => ordering.is_ge(),
        Sign::Tilde => ordering.is_ge() && minor_agrees(version, partial),
        Sign::Caret => ordering.is_ge() && caret_agrees(version, partial),
    }
}

fn meets_open(sign: Sign, version: &semver::Version, partial: &Partial) -> bool
    ensures { result ≡ spec.meets_open sign (parts_of version.now) (spelled partial.now) }
{
    match sign {
        Sign::Equal | Sign::Tilde => {
            filled_order(version, partial).is_ge() && prefix_agrees(version, partial)
        }
        Sign::Less => prefix_order(version, partial).is_lt(),
        Sign::LessOrEqual => prefix_order(version, partial).is_le(),
        Sign::Greater => prefix_order(version, partial).is_gt(),
        Sign::GreaterOrEqual => filled_order(version, partial).is_ge(),
        Sign::Caret => filled_order(version, partial).is_ge() && caret_agrees(version, partial),
    }
}

fn meets(version: &semver::Version, comparator: &Comparator) -> bool
    ensures { result ≡ meets_comparator (parts_of version.now) (seen comparator.now) }
{
    match &comparator.partial {
        Partial::Full(_) => meets_full(comparator.sign, version, &comparator.partial),
        _ => meets_open(comparator.sign, version, &comparator.partial),
    }
}

/// Whether the comparator has a pre-release and the version's numbers.
fn lets_pre_in(version: &semver::Version, comparator: &Comparator) -> bool
    ensures { result ≡ spec.lets_pre_in (parts_of version.now) (seen comparator.now) }
{
    match &comparator.partial {
        Partial::Full(full) => {
            !full.pre.is_empty()
                && full.major == version.major
                && full.minor == version.minor
                && full.patch == version.patch
        }
        _ => false,
    }
}

fn meets_all(version: &semver::Version, set: &[Comparator]) -> bool
    ensures { result ≡ list_all (meets_comparator (parts_of version.now)) (map seen set.now) }
{
    'all: for comparator in set {
        if !meets(version, comparator) {
            return false;
        }
    }
    true
}

fn some_lets_pre_in(version: &semver::Version, set: &[Comparator]) -> bool
    ensures { result ≡ list_any (spec.lets_pre_in (parts_of version.now)) (map seen set.now) }
{
    'some: for comparator in set {
        if lets_pre_in(version, comparator) {
            return true;
        }
    }
    false
}

fn meets_set(version: &semver::Version, set: &[Comparator]) -> bool
    ensures { result ≡ spec.meets_set (parts_of version.now) (map seen set.now) }
{
    meets_all(version, set) && (version.pre.is_empty() || some_lets_pre_in(version, set))
}

/// Whether the version meets one of the sets.
pub(crate) fn meets_any(version: &semver::Version, sets: &[Vec<Comparator>]) -> bool
    ensures { result ≡ list_any (spec.meets_set (parts_of version.now)) (sets_seen sets.now) }
{
    'sets: for set in sets {
        if meets_set(version, set) {
            return true;
        }
    }
    false
}
