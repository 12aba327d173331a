use crate::{
    Failed, Inputs, MemoryInputs, MemoryOutputs, Outputs, Port, PortFault, RealInputs, RealOutputs,
    Slot, SureInputs, SureOutputs, write_whole,
};
use lit_base::{List, NoMemory};
use std::alloc::Global;
use std::test::Fail;

fn list_of(alloc: Global, bytes: &[u8]) -> Result<List<u8>, NoMemory> {
    let mut list = List::new(alloc);
    for byte in bytes {
        list.push(*byte)?;
    }
    Ok(list)
}

/// Two files of one name and one of another.
fn files(alloc: Global) -> Result<List<(List<u8>, List<u8>)>, NoMemory> {
    let mut files = List::new(alloc);
    files.push((list_of(alloc, b"one")?, list_of(alloc, b"abcde")?))?;
    files.push((list_of(alloc, b"one")?, list_of(alloc, b"late")?))?;
    files.push((list_of(alloc, b"two")?, list_of(alloc, b"xyz")?))?;
    Ok(files)
}

/// Reads to the end, or to the first read that fails, and answers whether the end came.
fn read_on<I: Inputs>(inputs: &mut I, slot: Slot, taken: &mut List<u8>) -> Result<bool, NoMemory> {
    let mut buf = [0; 4];
    for _ in 0..20 {
        match inputs.read(slot, &mut buf) {
            Ok(0) => return Ok(true),
            Ok(count) => {
                for byte in &buf[..count] {
                    taken.push(*byte)?;
                }
            }
            Err(Failed) => return Ok(false),
        }
    }
    Ok(false)
}

#[test]
fn a_read_that_fails_in_mid_stream_is_answered_and_loses_nothing(
    rt: HostRuntime,
) -> Result<(), Fail> {
    let alloc = rt.alloc();
    for (grain, number, front) in [
        (1, 4, b"ab".as_slice()),
        (2, 4, b"abcd"),
        (3, 3, b"abc"),
        (4096, 3, b"abcd"),
    ] {
        assert!(rt; grain > 0);
        let mut failing = List::new(alloc);
        failing.push((Slot::Proof, 2))?;
        failing.push((Slot::Formula, number))?;
        let mut inputs = MemoryInputs::new(files(alloc)?, grain, failing);
        assert_eq!(rt; inputs.begin(Slot::Formula, "one"), Ok(()));
        let mut taken = List::new(alloc);
        assert!(rt;
            !read_on(&mut inputs, Slot::Formula, &mut taken)?,
            "grain {grain}"
        );
        assert_eq!(rt; taken.as_slice(), front, "grain {grain}");
        assert!(rt;
            read_on(&mut inputs, Slot::Formula, &mut taken)?,
            "grain {grain}"
        );
        assert_eq!(rt; taken.as_slice(), b"abcde".as_slice(), "grain {grain}");
    }
    Ok(())
}

#[test]
fn a_name_that_no_file_has_fails_and_leaves_the_other_slot(rt: HostRuntime) -> Result<(), Fail> {
    let alloc = rt.alloc();
    let mut inputs = MemoryInputs::new(files(alloc)?, 2, List::new(alloc));
    let mut taken = List::new(alloc);
    assert!(rt;
        read_on(&mut inputs, Slot::Proof, &mut taken)?,
        "nothing was begun"
    );
    assert_eq!(rt; inputs.begin(Slot::Proof, "two"), Ok(()));
    assert_eq!(rt; inputs.begin(Slot::Formula, "tw"), Err(Failed));
    assert!(rt;
        read_on(&mut inputs, Slot::Formula, &mut taken)?,
        "nothing is open"
    );
    assert_eq!(rt; taken.len(), 0);
    assert!(rt; read_on(&mut inputs, Slot::Proof, &mut taken)?);
    assert_eq!(rt; taken.as_slice(), b"xyz".as_slice());
    Ok(())
}

#[test]
fn a_write_that_fails_in_mid_stream_leaves_a_front(rt: HostRuntime) -> Result<(), Fail> {
    let alloc = rt.alloc();
    for (grain, number, front) in [
        (1, 3, b"ab".as_slice()),
        (2, 3, b"abcd"),
        (3, 1, b""),
        (3, 2, b"abc"),
        (4096, 2, b"abcde"),
    ] {
        assert!(rt; grain > 0);
        let mut failing = List::new(alloc);
        failing.push((Port::Log, 1))?;
        failing.push((Port::Answer, number))?;
        let mut outputs = MemoryOutputs::new(alloc, grain, failing);
        let whole = front.len() == 5;
        let answer = write_whole(&mut outputs, Port::Answer, b"abcde");
        assert_eq!(rt;
            answer,
            if whole {
                Ok(())
            } else {
                Err(PortFault::Failed)
            },
            "grain {grain}"
        );
        assert_eq!(rt; outputs.kept(Port::Answer), front, "grain {grain}");
        assert_eq!(rt; outputs.kept(Port::Complaint).len(), 0);
    }
    Ok(())
}

#[test]
fn a_name_is_kept_also_where_create_fails(rt: HostRuntime) -> Result<(), Fail> {
    let alloc = rt.alloc();
    let mut failing = List::new(alloc);
    failing.push((Port::Log, 2))?;
    let mut outputs = MemoryOutputs::new(alloc, 3, failing);
    write_whole(&mut outputs, Port::Log, b"was").expect(&rt, "a write");
    assert_eq!(rt; outputs.create(Port::Log, "first"), Err(PortFault::Failed));
    assert_eq!(rt; outputs.kept(Port::Log), b"was".as_slice());
    assert_eq!(rt; outputs.create(Port::Log, "second"), Ok(()));
    assert_eq!(rt; outputs.kept(Port::Log), b"".as_slice());
    write_whole(&mut outputs, Port::Log, b"new lines").expect(&rt, "a write");
    assert_eq!(rt; outputs.kept(Port::Log), b"new lines".as_slice());
    let names = outputs.kept_names();
    assert_eq!(rt; names.len(), 2);
    assert_eq!(rt; names[0].as_str(), "first");
    assert_eq!(rt; names[1].as_str(), "second");
    Ok(())
}

#[test]
fn sure_inputs_and_outputs_never_fail(rt: HostRuntime) -> Result<(), Fail> {
    let alloc = rt.alloc();
    let mut inputs = SureInputs::new(list_of(alloc, b"formula")?, list_of(alloc, b"proof")?);
    let mut taken = List::new(alloc);
    assert!(rt;
        read_on(&mut inputs, Slot::Formula, &mut taken)?,
        "not begun"
    );
    inputs.begin(Slot::Formula, "any").unwrap();
    inputs.begin(Slot::Proof, "").unwrap();
    assert!(rt; read_on(&mut inputs, Slot::Formula, &mut taken)?);
    assert!(rt; read_on(&mut inputs, Slot::Proof, &mut taken)?);
    let mut outputs = SureOutputs::new(alloc);
    outputs.create(Port::Log, "log").expect(&rt, "memory");
    write_whole(&mut outputs, Port::Complaint, taken.as_slice()).expect(&rt, "memory");
    assert_eq!(rt; outputs.kept(Port::Complaint), b"formulaproof".as_slice());
    assert_eq!(rt; outputs.kept_names().len(), 1);
    Ok(())
}

#[test]
fn files_and_streams_of_the_system_answer(rt: HostRuntime) -> Result<(), Fail> {
    let mut inputs = RealInputs::new(rt);
    let mut taken = List::new(rt.alloc());
    assert_eq!(rt;
        inputs.begin(Slot::Formula, "no such folder/no file"),
        Err(Failed)
    );
    assert!(rt;
        !read_on(&mut inputs, Slot::Formula, &mut taken)?,
        "nothing is open"
    );
    assert_eq!(rt; inputs.begin(Slot::Formula, "/dev/null"), Ok(()));
    assert!(rt; read_on(&mut inputs, Slot::Formula, &mut taken)?);
    assert_eq!(rt; taken.len(), 0);
    let mut outputs = RealOutputs::new(rt);
    assert_eq!(rt;
        write_whole(&mut outputs, Port::Log, b"no log"),
        Err(PortFault::Failed)
    );
    assert!(rt; outputs.create(Port::Log, "no such folder/no file").is_err());
    assert_eq!(rt; outputs.create(Port::Log, "/dev/full"), Ok(()));
    assert_eq!(rt;
        write_whole(&mut outputs, Port::Log, b"no room"),
        Err(PortFault::Failed)
    );
    assert_eq!(rt; outputs.create(Port::Log, "/dev/null"), Ok(()));
    for port in [Port::Answer, Port::Log, Port::Complaint] {
        assert_eq!(rt; write_whole(&mut outputs, port, b"written\n"), Ok(()));
    }
    Ok(())
}
