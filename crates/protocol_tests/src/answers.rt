//! The lines of the replies to changes and to queries.
use package_judge::Package;
use session_proto::answers::{
    Worth, begun, certificate, committed, created, deleted, found, infeasible, inserted, loaded,
    not_found, optimal, partitioned, queued, rolled_back, undecided, undecided_best, updated,
    vacuumed,
};
use session_proto::{Reply, reply_bytes};
use std::alloc::{AllocError, Global};
use std::test::Fail;

// A reply with its bytes.
type Case = (Reply, &'static str);

// The replies to changes, by their numbers from 0.
fn to_changes(alloc: Global, case: usize) -> Result<Option<Case>, AllocError> {
    let (reply, want) = match case {
        0 => (
            created(alloc, 1),
            "{\"status\":\"created\",\"version\":1}\n",
        ),
        1 => (
            inserted(alloc, 3, 2),
            "{\"rows\":3,\"status\":\"inserted\",\"version\":2}\n",
        ),
        2 => (
            loaded(alloc, 0, 3),
            "{\"rows\":0,\"status\":\"loaded\",\"version\":3}\n",
        ),
        3 => (
            updated(alloc, 5, 4),
            "{\"rows\":5,\"status\":\"updated\",\"version\":4}\n",
        ),
        4 => (
            deleted(alloc, 6, 5),
            "{\"rows\":6,\"status\":\"deleted\",\"version\":5}\n",
        ),
        5 => (
            partitioned(alloc, 6),
            "{\"status\":\"partitioned\",\"version\":6}\n",
        ),
        6 => (
            vacuumed(alloc, 4, 7),
            "{\"low\":4,\"status\":\"vacuumed\",\"version\":7}\n",
        ),
        7 => (begun(alloc), "{\"status\":\"begun\"}\n"),
        8 => (rolled_back(alloc), "{\"status\":\"rolledback\"}\n"),
        9 => (queued(alloc, 2), "{\"changes\":2,\"status\":\"queued\"}\n"),
        10 => (
            committed(alloc, 2, 9, 8),
            "{\"changes\":2,\"rows\":9,\"status\":\"committed\",\"version\":8}\n",
        ),
        11 => (
            infeasible(alloc, 2),
            "{\"status\":\"infeasible\",\"version\":2}\n",
        ),
        12 => (
            not_found(alloc, 2),
            "{\"status\":\"notfound\",\"version\":2}\n",
        ),
        _ => return Ok(None),
    };
    Ok(Some((reply?, want)))
}

// The replies to queries with a package, without a goal and with the number as its objective.
fn to_queries(
    alloc: Global,
    case: usize,
    number: Option<String>,
    package: Package,
) -> Result<Option<Case>, AllocError> {
    let (reply, want) = match case {
        0 => (
            optimal(alloc, number, package, 2),
            "{\"objective\":\"-6.5\",\"package\":[[1,1],[2,3]],\"status\":\"optimal\",\"version\":2}\n",
        ),
        1 => (
            optimal(alloc, None, package, 2),
            "{\"package\":[[1,1],[2,3]],\"status\":\"optimal\",\"version\":2}\n",
        ),
        2 => (
            undecided(alloc, number, 20, 2),
            "{\"bound\":\"-6.5\",\"nodes\":20,\"status\":\"undecided\",\"version\":2}\n",
        ),
        3 => (
            undecided(alloc, None, 20, 2),
            "{\"nodes\":20,\"status\":\"undecided\",\"version\":2}\n",
        ),
        4 => (
            undecided_best(alloc, None, 20, package, 2),
            "{\"nodes\":20,\"package\":[[1,1],[2,3]],\"status\":\"undecided\",\"version\":2}\n",
        ),
        5 => (
            found(alloc, number, package, 2),
            "{\"objective\":\"-6.5\",\"package\":[[1,1],[2,3]],\"status\":\"found\",\"version\":2}\n",
        ),
        6 => (
            found(alloc, None, package, 2),
            "{\"package\":[[1,1],[2,3]],\"status\":\"found\",\"version\":2}\n",
        ),
        _ => return Ok(None),
    };
    Ok(Some((reply?, want)))
}

fn package_of(alloc: Global) -> Result<Package, Fail> {
    match Package::new(vec![in alloc; (1, 1), (2, 3)]?) {
        Some(package) => Ok(package),
        None => Err(Fail::new("no package")),
    }
}

#[test]
fn answers_are_the_lines_of_the_formats(rt: HostRuntime) -> Result<(), Fail> {
    let alloc = rt.alloc();
    for case in 0..13 {
        let Some((reply, want)) = to_changes(alloc, case)? else {
            return Err(Fail::new("no such case"));
        };
        let bytes = reply_bytes(alloc, &reply)?;
        assert_eq!(rt; bytes.as_slice(), want.as_bytes(), "{want}");
    }
    for case in 0..7 {
        let number = Some(String::from_str(alloc, "-6.5")?);
        let Some((reply, want)) = to_queries(alloc, case, number, package_of(alloc)?)? else {
            return Err(Fail::new("no such case"));
        };
        let bytes = reply_bytes(alloc, &reply)?;
        assert_eq!(rt; bytes.as_slice(), want.as_bytes(), "{want}");
    }
    Ok(())
}

#[test]
fn a_goal_has_a_bound_and_an_objective(rt: HostRuntime) -> Result<(), Fail> {
    let alloc = rt.alloc();
    let worth = Worth {
        bound: String::from_str(alloc, "7")?,
        objective: String::from_str(alloc, "-6.5")?,
    };
    let reply = undecided_best(alloc, Some(worth), 20, package_of(alloc)?, 2)?;
    let want =
        "{\"bound\":\"7\",\"nodes\":20,\"objective\":\"-6.5\",\"package\":[[1,1],[2,3]],\"status\":\"undecided\",\"version\":2}\n";
    let bytes = reply_bytes(alloc, &reply)?;
    assert_eq!(rt; bytes.as_slice(), want.as_bytes());
    Ok(())
}

#[test]
fn a_certificate_comes_after_its_line(rt: HostRuntime) -> Result<(), Fail> {
    let alloc = rt.alloc();
    let reply = certificate(alloc, b"a\n\"".to_vec(alloc)?)?;
    let want = b"{\"bytes\":3,\"status\":\"certificate\"}\na\n\"";
    let bytes = reply_bytes(alloc, &reply)?;
    assert_eq!(rt; bytes.as_slice(), want.as_slice());
    Ok(())
}
