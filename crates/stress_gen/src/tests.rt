use crate::script_of;
use std::test::Fail;

#[test]
fn one_task(rt: HostRuntime) -> Result<(), Fail> {
    let text = script_of(rt.alloc(), 1)?;
    assert_eq!(rt;
        text.as_str(),
        "\
class Cell:
    n: Dyn
class Num:
    n: int
def bump(c, k: int) -> int:
    i: int = 0
    while i < k:
        c.n = c.n + 1
        i = i + 1
    return i
def task_1(k: int) -> int:
    c: Dyn = Cell(1)
    d: Num = cast(Num, c)
    bump(c, k)
    return d.n
total: int = 0
t_1 = start(task_1, 100)
total = total + join(t_1)
print(total)
"
    );
    Ok(())
}

#[test]
fn two_tasks(rt: HostRuntime) -> Result<(), Fail> {
    let text = script_of(rt.alloc(), 2)?;
    assert_eq!(rt;
        text.as_str(),
        "\
class Cell:
    n: Dyn
class Num:
    n: int
def bump(c, k: int) -> int:
    i: int = 0
    while i < k:
        c.n = c.n + 1
        i = i + 1
    return i
def task_1(k: int) -> int:
    c: Dyn = Cell(1)
    d: Num = cast(Num, c)
    bump(c, k)
    return d.n
def task_2(k: int) -> int:
    c: Dyn = Cell(2)
    d: Num = cast(Num, c)
    bump(c, k)
    return d.n
total: int = 0
t_1 = start(task_1, 100)
t_2 = start(task_2, 100)
total = total + join(t_1)
total = total + join(t_2)
print(total)
"
    );
    Ok(())
}
