use evp_base::Step as PathStep;
use evp_format::read_description;
use evp_plan::{BuildFault, Builds, Op, Origin, Plan, build};
use std::test::Fail;

// Little endian, pointers of 4 bytes, `p` of 4 bytes with one field at 0: `x integer`, `a string`,
// `a integer`.
const SMALL: &[u8] = b"NDF1\0\x04\0\x01\x01p\0\0\0\x04\0\x01\x01x\x07integer\0\0\0\x04\0\0\0\0";

const TEXT: &[u8] = b"NDF1\0\x04\0\x01\x01p\0\0\0\x04\0\x01\x01a\x06string\0\0\0\x04\0\0\0\0";

const NUMBER: &[u8] = b"NDF1\0\x04\0\x01\x01p\0\0\0\x04\0\x01\x01a\x07integer\0\0\0\x04\0\0\0\0";

// Big endian, pointers of 8 bytes, `q` of 16 bytes with `y integer` of 4 bytes, whose default is
// -1, and `x integer` of 8 bytes at 8.
const DEFAULTS: &[u8] = b"NDF2\x01\x08\0\x01\x01q\0\0\0\x10\0\x02\x01y\x07integer\0\0\0\x04\0\0\0\0\
\xff\xff\xff\xff\xff\xff\xff\xff\xff\xff\xff\xff\xff\xff\xff\xff\
\x01x\x07integer\0\0\0\x08\0\0\0\x08\0\0\0\0\0\0\0\0\0\0\0\0\0\0\0\0";

// The plan for two descriptions, and how many were built.
fn planned(rt: &HostRuntime, from: &[u8], to: &[u8]) -> (Option<Plan>, bool, u64) {
    let mut builds = Builds::new();
    let alloc = rt.alloc();
    let (Ok(from), Ok(to)) = (read_description(alloc, from), read_description(alloc, to)) else {
        return (None, false, 0);
    };
    match build(alloc, &from, &to, &mut builds) {
        Ok(plan) => (Some(plan), false, builds.count()),
        Err(BuildFault::Clash(path)) => {
            let named = match path.steps() {
                [PathStep::Field(name)] => name.as_bytes() == b"a".as_slice(),
                _ => false,
            };
            (None, named, builds.count())
        }
        Err(BuildFault::Memory) => (None, false, 0),
    }
}

#[test]
fn plans(rt: HostRuntime) -> Result<(), Fail> {
    // a text and a number of one name clash
    let (plan, clashes, count) = planned(&rt, TEXT, NUMBER);
    assert!(rt; plan.is_none() && clashes && count == 1, "clash");
    // a format and itself
    let (plan, _, count) = planned(&rt, SMALL, SMALL);
    let plan = plan.ok_or("alike")?;
    assert!(rt; plan.alike() && count == 1, "alike");
    // `y` has no partner, `x` one of 4 bytes at 0
    let (plan, _, _) = planned(&rt, SMALL, DEFAULTS);
    let plan = plan.ok_or("defaults")?;
    assert!(rt; !plan.alike(), "not alike");
    assert_eq!(rt; plan.fixed(), 16);
    let table = plan.table();
    assert_eq!(rt; table.len(), 2);
    let steps = table[1].as_slice();
    assert_eq!(rt; steps.len(), 2);
    assert!(rt;
        matches!(&steps[0].task.op, Op::Number(_, Origin::Stated(-1))),
        "default"
    );
    match &steps[1].task.op {
        Op::Number(_, Origin::Standing(source)) => {
            assert!(rt; source.offset == 0 && source.size == 4, "source");
        }
        _ => assert!(rt; false, "partner"),
    }
    Ok(())
}
